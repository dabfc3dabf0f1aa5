//! What a line of a script asks for.
use crate::call::Call;
use az_base::Mode;

/// One call, or a whole collection of a mode, which is several entries.
#[derive(Debug, Drop)]
pub enum Act {
    Call(Call),
    Collect(Mode),
}
