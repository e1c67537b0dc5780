// The row of rules of each operation.
ghost use Rattle.std.specs.Prelude.{◌≡◌};
ghost use Rattle.flat.specs.Raising.{rules_of};

use flat::{Divisor, Even, Exception, Goes, Narrow, Needs, Rules, Writes};
use word::Operation;

// No rule but that ipc goes to the next word.
const PLAIN: Rules = Rules {
    in_user_mode: None,
    not_wide: Narrow::NoField,
    one_width: Even::AnyWidths,
    needs: Needs::NoLine,
    writes: Writes::Nothing,
    divisor: Divisor::Absent,
    goes: Goes::On,
};

// The row of each operation.
#[inline(always)]
pub(crate) fn rules_of(op: Operation) -> Rules
    ensures { result ≡ rules_of op }
{
    let mut rules = PLAIN;
    match op {
        Operation::Arith { op, form, a, b, c } => {
            rules.not_wide = Narrow::OfArith { op, a, b, c };
            rules.one_width = Even::Three { form, a, b, c };
            rules.writes = Writes::Own(a);
        }
        Operation::AddAddress { form, a, c, .. } => {
            rules.not_wide = Narrow::Two(a, c);
            rules.one_width = Even::Two { form, a, c };
            rules.writes = Writes::Own(a);
        }
        Operation::Div { form, a, b, c, d } => {
            rules.not_wide = Narrow::One(c);
            rules.one_width = Even::Four { form, a, b, c, d };
            rules.writes = Writes::Both(a, d);
            rules.divisor = Divisor::Cast { form, a, c };
        }
        Operation::Reduce { op, a, .. } => {
            rules.not_wide = Narrow::OfReduction { op, a };
            rules.writes = Writes::Own(a);
        }
        Operation::Load { b, i, .. } => rules.needs = Needs::Target { b, i },
        Operation::Store { a, b, i, .. } => {
            rules.needs = Needs::Target { b, i };
            rules.writes = Writes::There { a, b, i };
        }
        Operation::Dup { a, .. } => rules.writes = Writes::Own(a),
        Operation::Fetch { b, i, j, .. } => rules.needs = Needs::Fetched { b, i, j },
        Operation::JumpNotZero { a, .. } => rules.goes = Goes::OnIfZero(a),
        Operation::JumpZero { a, .. } => rules.goes = Goes::OnIfNotZero(a),
        Operation::Hand { .. } => rules.in_user_mode = Some(Exception::Undefined),
        Operation::CopyOut { from, a } => {
            rules.in_user_mode = Some(Exception::UserCopyOut(from));
            rules.writes = Writes::Own(a);
        }
        Operation::CopyIn { to, .. } => rules.in_user_mode = Some(Exception::UserCopyIn(to)),
        Operation::Swi { .. } => {}
        Operation::Reti => {
            rules.in_user_mode = Some(Exception::UserReti);
            rules.goes = Goes::Nowhere;
        }
        Operation::Retx => {
            rules.in_user_mode = Some(Exception::UserRetx);
            rules.goes = Goes::Nowhere;
        }
    }
    rules
}
