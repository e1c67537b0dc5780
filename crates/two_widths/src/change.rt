// A change of one element.
ghost use Rattle.std.specs.Prelude.{pos};
ghost use Rattle.word.specs.Types.{width};
ghost use Rattle.word.specs.declared.element.ElementType.TheVariants.{U16};
ghost use Rattle.line.specs.Elements.{put};
ghost use Rattle.line.specs.Places.{element_number};
ghost use Rattle.two_widths.specs.Laws.{put_whole};

use line::{Place, put};
use tags::Change;
use word::ElementType;

// The u16 element at a place gets a number.
#[derive(Drop)]
pub struct PutU16 {
    pub place: Place,
    pub number: u16,
}

impl Change for PutU16 {
    ghost changed = { λ s b. put (width U16) b (element_number U16 s.place) (pos s.number) };

    fn change(&self, bytes: &mut [u8; 128]) {
        put(bytes, ElementType::U16, self.place, i128::from(self.number));
    }

    ghost whole = { λ s b h. put_whole s.place.offset (pos s.number) b s.place.inside h };
}
