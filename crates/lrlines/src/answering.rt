//! Reads lines, has each answered, and writes the answers.

ghost use Rattle.lrspec.specs.texts.Devices.{AppendsBeginning, AppendsFirstAnswers, HasFailed};
ghost use Rattle.lrspec.specs.texts.Lines.{whole_lines, rest_of, lines, HasNoLineFeed, nonempty, answers_to, answer_text};
ghost use Rattle.std.specs.Io.KnownBytes.{Appends, Keeps};
ghost use Rattle.lrlines.specs.Answered.{AreAnswered, AreFaultsTold};
ghost use Rattle.std.specs.Str.Lines.{strip_carriage_return};
ghost use Rattle.std.specs.Prelude.{◌≡◌, ◌≢◌, ℕ, ◌<◌, ◌≤◌, List, [], ◌∷◌, ◌++◌, length, take, OnOk, IfOk, IfSome, OnErr, MatchOption, MatchResult};

use crate::devices::{DeviceFault, LineRead, LineWrite};
use crate::errors::LineError;
use std::alloc::{AllocError, Global};

/// What answers lines.
pub trait LineAnswers {
    /// What is made once for all lines.
    type Prepared: Drop;

    // The answer to a line.
    ghost answer: { Self → List ℕ → List ℕ };

    // What is asked of a value that is to answer.
    ghost can_answer: { Self → Type 0 };

    // Whether the value answers by what was made.
    ghost is_prepared: { Self → Self.Prepared → Type 0 };

    /// Makes what the answers need. `answer_lines` calls this at the first line, and so asks for no memory where there is
    /// none. The error says that memory was refused.
    fn prepare(&self) -> Result<Self::Prepared, AllocError>
        ensures { IfOk result (λ prepared. is_prepared self.now prepared) };

    /// Writes the answer to a line behind `out`. The error says that memory was refused.
    fn answer(
        &self,
        prepared: &Self::Prepared,
        line: &[u8],
        out: &mut Vec<u8>,
    ) -> Result<(), AllocError>
        requires can { can_answer self.now }
        requires prepared { is_prepared self.now prepared.now }
        ensures { OnOk result (out.new.items ≡ out.old.items ++ answer self.now line.now) };
}

/// Answers each line that the reader gives up to its end. The answer and a line feed are written before the next read.
///
/// A line ends with a line feed, and one carriage return before that is dropped. What stands behind the last line feed is
/// a line too, if it is not empty.
///
/// `Read` comes where the reader fails, or has not ended after `u64::MAX` reads: all lines that were whole by then are
/// answered. `Write` comes where the writer fails, or takes no byte of some. `Memory` comes where memory was refused: the
/// lines before the one in work are answered whole.
pub fn answer_lines<R: LineRead, W: LineWrite, A: LineAnswers>(
    alloc: Global,
    reader: &mut R,
    writer: &mut W,
    answers: &A,
) -> Result<(), LineError>
    requires { A.can_answer answers.now }
    ensures answered { AreAnswered (A.answer answers.now) result
        (R.left reader.old) (R.left reader.new) (W.written writer.old) (W.written writer.new) }
    ensures faults { AreFaultsTold result (R.left reader.old) (R.left reader.new)
        (R.failures reader.old) (R.failures reader.new)
        (W.failures writer.old) (W.failures writer.new) }
{
    let mut buf = [0u8; 4096];
    let mut line = Vec::new(alloc);
    let mut out = Vec::new(alloc);
    let mut prepared = None;
    for _ in 0..u64::MAX {
        let n = match reader.read(&mut buf) {
            Ok(n) => n,
            Err(_) => return Err(LineError::Read),
        };
        if n == 0 {
            return answer_rest(line.as_slice(), &mut out, writer, answers, &mut prepared);
        }
        answer_bytes(
            &buf[..n],
            &mut line,
            &mut out,
            writer,
            answers,
            &mut prepared,
        )?;
    }
    Err(LineError::Read)
}

/// Answers each line that a line feed in the bytes ends, whose front may be in `line`; the rest is kept there.
fn answer_bytes<W: LineWrite, A: LineAnswers>(
    bytes: &[u8],
    line: &mut Vec<u8>,
    out: &mut Vec<u8>,
    writer: &mut W,
    answers: &A,
    prepared: &mut Option<A::Prepared>,
) -> Result<(), LineError>
    requires can { A.can_answer answers.now }
    requires prepared { IfSome prepared.old (A.is_prepared answers.now) }
    requires no_feed { HasNoLineFeed line.old.items }
    ensures rest { OnOk result (line.new.items ≡ rest_of (line.old.items ++ bytes.now)) }
    ensures no_feed { OnOk result (HasNoLineFeed line.new.items) }
    ensures prepared { IfSome prepared.new (A.is_prepared answers.now) }
    ensures ok { OnOk result (Appends (W.written writer.old) (W.written writer.new)
        (answers_to (A.answer answers.now) (whole_lines (line.old.items ++ bytes.now)))) }
    ensures write { result ≡ Err LineError.Write →
        AppendsBeginning (W.written writer.old) (W.written writer.new)
        (answer_text (A.answer answers.now) (line.old.items ++ bytes.now)) }
    ensures memory { result ≡ Err LineError.Memory →
        AppendsFirstAnswers (W.written writer.old) (W.written writer.new)
        (A.answer answers.now) (lines (line.old.items ++ bytes.now)) }
    ensures no_read { result ≢ Err LineError.Read }
    ensures write_fault { result ≡ Err LineError.Write →
        HasFailed (W.failures writer.old) (W.failures writer.new) }
    ensures writer_counts { result ≢ Err LineError.Write →
        W.failures writer.new ≡ W.failures writer.old }
{
    let mut behind = bytes;
    while let Some((piece, more)) = cut(behind) {
        line.extend_from_slice(piece)?;
        answer_line(
            without_return(line.as_slice()),
            out,
            writer,
            answers,
            prepared,
        )?;
        line.clear();
        behind = more;
    }
    line.extend_from_slice(behind)?;
    Ok(())
}

/// The bytes before the first line feed and those behind it; None if there is no line feed.
fn cut(bytes: &[u8]) -> Option<(&[u8], &[u8])>
    ensures { MatchOption result (HasNoLineFeed bytes.now)
        (λ p. HasNoLineFeed p.0.now × (bytes.now ≡ p.0.now ++ 10 ∷ p.1.now)) }
{
    let at = bytes.iter().position(|b| *b == b'\n')?;
    let (piece, behind) = bytes.split_at(at);
    Some((piece, &behind[1..]))
}

/// The line less one carriage return at its end, if it has one.
fn without_return(line: &[u8]) -> &[u8]
    ensures { result.now ≡ strip_carriage_return line.now }
{
    match line.split_last() {
        Some((b'\r', front)) => front,
        _ => line,
    }
}

/// Answers what stands behind the last line feed, which is a line if it is not empty.
fn answer_rest<W: LineWrite, A: LineAnswers>(
    line: &[u8],
    out: &mut Vec<u8>,
    writer: &mut W,
    answers: &A,
    prepared: &mut Option<A::Prepared>,
) -> Result<(), LineError>
    requires can { A.can_answer answers.now }
    requires prepared { IfSome prepared.old (A.is_prepared answers.now) }
    ensures ok { OnOk result (Appends (W.written writer.old) (W.written writer.new)
        (answers_to (A.answer answers.now) (nonempty (line.now ∷ [])))) }
    ensures write { result ≡ Err LineError.Write →
        AppendsBeginning (W.written writer.old) (W.written writer.new)
        (answers_to (A.answer answers.now) (nonempty (line.now ∷ []))) }
    ensures memory { result ≡ Err LineError.Memory →
        (Keeps (W.written writer.old) (W.written writer.new))
        × (0 < length line.now) }
    ensures no_read { result ≢ Err LineError.Read }
    ensures write_fault { result ≡ Err LineError.Write →
        HasFailed (W.failures writer.old) (W.failures writer.new) }
    ensures writer_counts { result ≢ Err LineError.Write →
        W.failures writer.new ≡ W.failures writer.old }
{
    if line.is_empty() {
        return Ok(());
    }
    answer_line(line, out, writer, answers, prepared)
}

/// Writes the answer to a line, and a line feed.
fn answer_line<W: LineWrite, A: LineAnswers>(
    line: &[u8],
    out: &mut Vec<u8>,
    writer: &mut W,
    answers: &A,
    prepared: &mut Option<A::Prepared>,
) -> Result<(), LineError>
    requires can { A.can_answer answers.now }
    requires prepared { IfSome prepared.old (A.is_prepared answers.now) }
    ensures prepared { IfSome prepared.new (A.is_prepared answers.now) }
    ensures ok { OnOk result (Appends (W.written writer.old) (W.written writer.new)
        (A.answer answers.now line.now ++ 10 ∷ [])) }
    ensures write { result ≡ Err LineError.Write →
        AppendsBeginning (W.written writer.old) (W.written writer.new)
        (A.answer answers.now line.now ++ 10 ∷ []) }
    ensures memory { result ≡ Err LineError.Memory →
        Keeps (W.written writer.old) (W.written writer.new) }
    ensures no_read { result ≢ Err LineError.Read }
    ensures write_fault { result ≡ Err LineError.Write →
        HasFailed (W.failures writer.old) (W.failures writer.new) }
    ensures writer_counts { result ≢ Err LineError.Write →
        W.failures writer.new ≡ W.failures writer.old }
{
    out.clear();
    if prepared.is_none() {
        *prepared = Some(answers.prepare()?);
    }
    answers.answer(prepared.as_ref().unwrap(), line, out)?;
    out.push(b'\n')?;
    write_all(writer, out.as_slice()).map_err(|_| LineError::Write)
}

/// Writes all of a part.
fn write_all<W: LineWrite>(writer: &mut W, part: &[u8]) -> Result<(), DeviceFault>
    ensures ok { OnOk result (Appends (W.written writer.old) (W.written writer.new) part.now) }
    ensures err { OnErr result
        (AppendsBeginning (W.written writer.old) (W.written writer.new) part.now) }
    ensures failed { OnErr result (HasFailed (W.failures writer.old) (W.failures writer.new)) }
    ensures counts { OnOk result (W.failures writer.new ≡ W.failures writer.old) }
{
    let mut behind = part;
    while !behind.is_empty() {
        let n = writer.write(behind)?;
        if n == 0 {
            return Err(DeviceFault);
        }
        behind = &behind[n..];
    }
    Ok(())
}
