//! What is printed of a grammar, as text.

ghost use Rattle.std.specs.Prelude.{◌≡◌, ◌++◌, Some, IfOk, IfErr, codes};
ghost use Rattle.std.specs.Option.{IsSomeAnd};
ghost use Rattle.std.specs.String.{string_bytes};
ghost use Rattle.lrtable.specs.Refusals.{IsBuildRefusal};
ghost use Rattle.lrcommand.specs.declared.requests.Listing.TheVariants.{Start, Core, Closed, Conflicts};
ghost use Rattle.lrcommand.specs.Requests.{bytes_of, name_of};
ghost use Rattle.lrcommand.specs.Printing.{max_index, MeansGrammar, Prints, IsPrinted};
ghost use Rattle.lrcommand.specs.Printing.{IsUnread, IsUnprinted, IsTextFault, IsFault};

use crate::faults::Fault;
use crate::requests::{Listing, Source};
use lrgrammar::grammar::YaccGrammar;
use lritems::cores;
use lrtable::{BuildError, Minimiser, StateGraph, from_yacc};
use std::alloc::{AllocError, Global};
use std::mem::forget;

/// The text that is printed of a grammar; `file` holds the bytes of its source, and is None where they could not be
/// read. A state graph made for it stays in memory until the program ends.
pub fn listing_text<'a>(
    alloc: Global,
    listing: Listing,
    source: Source<'a>,
    file: Option<&[u8]>,
) -> Result<String, Fault<'a>>
    ensures text { IfOk result (λ text. IsSomeAnd (bytes_of file.entry)
        (λ bytes. IsPrinted bytes listing (string_bytes text))) }
    ensures fault { IfErr result (IsFault (bytes_of file.entry)
        listing (name_of source.entry)) }
{
    let grm = grammar_of(alloc, source, file)?;
    printed(listing, &grm)
}

/// The grammar that the source means.
pub fn grammar_of<'a>(
    alloc: Global,
    source: Source<'a>,
    file: Option<&[u8]>,
) -> Result<YaccGrammar<u32>, Fault<'a>>
    ensures grammar { IfOk result (λ grm.
        IsSomeAnd (bytes_of file.entry) (λ bytes. MeansGrammar bytes grm)) }
    ensures fault { IfErr result (IsTextFault (bytes_of file.entry)
        (name_of source.entry)) }
{
    let text = decoded(source, file)?;
    Ok(YaccGrammar::<u32>::from_text(alloc, text)?)
}

/// The bytes of the source as text.
fn decoded<'a, 'b>(source: Source<'a>, file: Option<&'b [u8]>) -> Result<&'b str, Fault<'a>>
    ensures text { IfOk result (λ text.
        bytes_of file.entry ≡ Some text.now) }
    ensures fault { IfErr result
        (IsUnread (bytes_of file.entry) (name_of source.entry)) }
{
    let Some(bytes) = file else {
        return Err(Fault::CannotRead(source));
    };
    match std::str::from_utf8(bytes) {
        Ok(text) => Ok(text),
        Err(_) => Err(Fault::NotUtf8(source)),
    }
}

/// The text that is printed of a grammar.
fn printed<'a>(listing: Listing, grm: &YaccGrammar<u32>) -> Result<String, Fault<'a>>
    ensures text { IfOk result (λ text. Prints grm.now listing (string_bytes text)) }
    ensures fault { IfErr result (IsUnprinted grm.now listing) }
{
    Ok(match listing {
        Listing::Start => start_text(grm)?,
        Listing::Core => core_text(grm)?,
        Listing::Closed => closed_text(grm)?,
        Listing::Conflicts => conflicts_text(grm)?,
    })
}

/// The text with a line feed behind it.
fn ended(mut text: String) -> Result<String, AllocError>
    ensures { IfOk result (λ s. string_bytes s ≡ string_bytes text ++ codes "\n") }
{
    text.push('\n')?;
    Ok(text)
}

/// The text of the closed start state, an item a line.
fn start_text(grm: &YaccGrammar<u32>) -> Result<String, AllocError>
    ensures { IfOk result (λ s. Prints grm.now Start (string_bytes s)) }
{
    let firsts = grm.firsts()?;
    let core = cores::Core::of_start(grm)?.into_itemset(grm.allocator())?;
    let closed = core.close(grm, &firsts)?;
    ended(closed.pp(grm)?)
}

/// Leaves the graph to the end of the program, which is near: to let go of its states one by one would take time.
fn leave(graph: StateGraph<u32>) {
    forget(graph);
}

/// The text of the state graph with the cores of its states.
fn core_text(grm: &YaccGrammar<u32>) -> Result<String, BuildError<u32>>
    ensures text { IfOk result (λ s. Prints grm.now Core (string_bytes s)) }
    ensures refused { IfErr result (IsBuildRefusal (λ n. n) max_index grm.now) }
{
    let (graph, _table) = from_yacc(grm.allocator(), grm, Minimiser::Pager)?;
    let text = graph.pp_core_states(grm)?;
    leave(graph);
    Ok(ended(text)?)
}

/// The text of the state graph with its closed states.
fn closed_text(grm: &YaccGrammar<u32>) -> Result<String, BuildError<u32>>
    ensures text { IfOk result (λ s. Prints grm.now Closed (string_bytes s)) }
    ensures refused { IfErr result (IsBuildRefusal (λ n. n) max_index grm.now) }
{
    let (graph, _table) = from_yacc(grm.allocator(), grm, Minimiser::Pager)?;
    let text = graph.pp_closed_states(grm)?;
    leave(graph);
    Ok(ended(text)?)
}

/// The text of the conflicts of the table, or that there are none.
fn conflicts_text(grm: &YaccGrammar<u32>) -> Result<String, BuildError<u32>>
    ensures text { IfOk result (λ s. Prints grm.now Conflicts (string_bytes s)) }
    ensures refused { IfErr result (IsBuildRefusal (λ n. n) max_index grm.now) }
{
    let alloc = grm.allocator();
    let (graph, table) = from_yacc(alloc, grm, Minimiser::Pager)?;
    leave(graph);
    match table.conflicts() {
        Some(conflicts) => Ok(conflicts.pp(grm)?),
        None => Ok(String::from_str(alloc, "no conflicts\n")?),
    }
}
