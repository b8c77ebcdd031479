//! What a call answers, and leaves in the caller's buffer.

ghost use Rattle.std.specs.Prelude.{◌≡◌, ◌⊎◌, ◌^◌, ◌-◌, IfOk, OnErr, length};
ghost use Rattle.lrc.specs.Told.{put_in};

use std::alloc::AllocError;

/// Why nothing is told.
pub(crate) enum Problem {
    /// The text is no grammar, its grammar has no table, or there is no such report.
    Input,
    /// Memory was refused, or the table has a number of more than 32 bits.
    Size,
}

impl From<AllocError> for Problem {
    fn from(_refused: AllocError) -> Problem {
        Problem::Size
    }
}

/// Puts what there is to tell into a buffer, as far as that has room.
fn put<T: Copy>(whole: &[T], out: &mut [T])
    ensures { out.new ≡ put_in out.old whole.now }
{
    let count = whole.len().min(out.len());
    out[..count].copy_from_slice(&whole[..count]);
}

/// Puts what there is to tell into a buffer, as far as that has room, and answers how long it is; 0 for input that is refused, and
/// the greatest number where something is too large.
pub(crate) fn answer<T: Copy + Drop>(told: Result<Vec<T>, Problem>, out: &mut [T]) -> usize
    ensures told { IfOk told (λ v. result ≡ length v.items) }
    ensures written { IfOk told (λ v. out.new ≡ put_in out.old v.items) }
    ensures problem { OnErr told ((result ≡ 0) ⊎ (result ≡ 2 ^ 64 - 1)) }
    ensures kept { (result ≡ 0) ⊎ (result ≡ 2 ^ 64 - 1) → out.new ≡ out.old }
{
    match told {
        Ok(whole) => {
            put(whole.as_slice(), out);
            whole.len()
        }
        Err(Problem::Input) => 0,
        Err(Problem::Size) => usize::MAX,
    }
}
