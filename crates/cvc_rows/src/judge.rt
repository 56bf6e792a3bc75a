//! What a kind of file says of its lines.

use crate::Refused;
use cvc_base::{Cause, Line};
use std::alloc::Global;

/// A judge of the lines of one file, in order. It may keep what it needs to know of the rows so far.
pub trait Judge: Drop {
    ghost use Rattle.std.specs.Prelude.{◌≡◌, ◌∷◌, ◌++◌, [], List, Result, IfOk};
    ghost use Rattle.cvc_base.specs.declared.cause.Cause.{Cause as AnyCause};
    ghost use Rattle.cvc_base.specs.declared.line.Line.{Line};
    ghost use Rattle.cvc_rows.specs.Refusing.{Answers};

    /// What a line says.
    type Row: Drop;

    /// Why a line is refused.
    type Cause: Drop;

    // the verdict on a line behind these rows: its row, or the first cause that stands at it
    ghost verdict: { Self → List Self.Row → Line → Result Self.Row Self.Cause };

    // the cause that a lexical one is told as
    ghost told: { AnyCause → Self.Cause };

    // the judge knows that these are the rows so far
    ghost knows: { Self → List Self.Row → Type 0 };

    // what holds of each row that a verdict gives
    ghost fine: { Self.Row → Type 0 };

    /// The verdict on the next line.
    fn judge(&mut self, alloc: Global, line: &Line) -> Result<Self::Row, Refused<Self::Cause>>
        ensures verdict { (rows : List Self.Row) → knows self.old rows → Answers result (verdict self.old rows line.now) }
        ensures knows { (rows : List Self.Row) → knows self.old rows → IfOk result (λ row. knows self.new (rows ++ row ∷ [])) }
        ensures fine { IfOk result fine }
        ensures same { verdict self.new ≡ verdict self.old };

    /// A lexical cause, as this file tells it.
    fn tell(cause: Cause) -> Self::Cause
        ensures { result ≡ told cause };
}
