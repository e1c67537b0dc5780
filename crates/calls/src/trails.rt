// The trails of a trace.
ghost use Rattle.std.specs.Prelude.{◌≡◌, ◌<◌, ◌∷◌, ◌&&◌, [], nat_lt};
ghost use Rattle.flat.specs.Calls.{kept_of_step, sent_lines};
ghost use Rattle.trail.specs.Trails.{Added, space};

use flat::{Bus, Slots, StepRecord};
use trail::Trail;

// One trail gets a record of each step, and the other the lines that the steps sent back.
#[derive(Drop)]
pub struct Trails<'a> {
    pub steps: Trail<'a, StepRecord>,
    pub lines: Trail<'a, u32>,
}

// Adds a record to a trail that has space.
fn keep<T: Drop>(trail: &mut Trail<T>, record: T)
    requires { 0 < space trail.old }
    ensures { Added trail.old trail.new («record» ∷ []) }
{
    trail.add(record).unwrap()
}

// Adds the line that a step sent back, if it sent one.
fn keep_line(trail: &mut Trail<u32>, sent: Option<u32>)
    requires { 0 < space trail.old }
    ensures { Added trail.old trail.new (sent_lines sent) }
{
    if let Some(line) = sent {
        keep(trail, line);
    }
}

impl<'a> Trails<'a> {
    ghost use Rattle.calls.specs.Trails.{Keeps};
    ghost use Rattle.calls.specs.Trails.{space as spaces};

    // How many records still fit into each.
    pub fn space(&self) -> Slots
        ensures { result ≡ spaces self.now }
    {
        Slots {
            steps: self.steps.space(),
            lines: self.lines.space(),
        }
    }

    // Whether both have space beside so many slots of each.
    pub(crate) fn have_space(&self, spare: Slots) -> bool
        ensures { result ≡ (nat_lt spare.steps (space self.now.steps) && nat_lt spare.lines (space self.now.lines)) }
    {
        spare.steps < self.steps.space() && spare.lines < self.lines.space()
    }

    // Keeps what a trace keeps of a step. Both have space.
    pub(crate) fn keep(&mut self, made: StepRecord, bus: Bus)
        requires steps { 0 < space self.old.steps }
        requires lines { 0 < space self.old.lines }
        ensures { Keeps self.old self.new (kept_of_step made bus) }
    {
        keep(&mut self.steps, made);
        keep_line(&mut self.lines, bus.sent);
    }
}
