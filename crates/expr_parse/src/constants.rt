//! Constants (Fortran 90, 4.3).

ghost use Rattle.std.specs.Prelude.{◌≡◌};
ghost use Rattle.expr_parse.specs.steps.Input.{Gives};
ghost use Rattle.expr_parse.specs.steps.Reading as spec;

use crate::cursor::Cursor;
use crate::fault::Misfit;
use ftn_base::{Bytes, GREATEST_INTEGER};
use ftn_tree::{Expr, Lexeme};
use std::alloc::Global;

/// The number that digits mean, if it is small enough. All greater ones count as one.
#[tactic(auto, unfolding(crate::specs::steps::Reading::whole_value))]
fn whole_value(digits: &[u8]) -> Option<i32>
    ensures { result ≡ spec.whole_value digits.now }
{
    let mut value: u64 = 0;
    for digit in digits {
        value = (value * 10 + u64::from(digit.saturating_sub(b'0'))).min(
            u64::from(GREATEST_INTEGER) + 1,
        );
    }
    if value <= u64::from(GREATEST_INTEGER) {
        Some(value as i32)
    } else {
        None
    }
}

/// Reads a token that is a constant by itself.
#[tactic(auto, unfolding(crate::specs::steps::Reading::constant))]
pub fn constant(alloc: Global, cursor: &mut Cursor<'_>) -> Result<Expr, Misfit>
    ensures { Gives (spec.constant cursor.old) result cursor.new }
{
    let [here, ..] = cursor.rest() else {
        return Err(Misfit::NoFit);
    };
    let token = cursor.at();
    let found = match here.lexeme() {
        Lexeme::Whole => {
            let Some(value) = whole_value(here.value.bytes()) else {
                return Err(Misfit::NoFit);
            };
            Expr::Whole { token, value }
        }
        Lexeme::True => Expr::Truth { token, value: true },
        Lexeme::False => Expr::Truth {
            token,
            value: false,
        },
        Lexeme::Quoted => Expr::Quoted {
            token,
            value: Bytes::from_slice(alloc, here.value.bytes())?,
        },
        _ => return Err(Misfit::NoFit),
    };
    cursor.skip();
    Ok(found)
}
