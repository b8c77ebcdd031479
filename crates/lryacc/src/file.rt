//! Reads a grammar file.

ghost use Rattle.std.specs.Prelude.{◌≡◌, ◌<◌, All, IfOk, length, vec_len};
ghost use Rattle.lryacc.specs.Aliases.{AreSettled};
ghost use Rattle.lryacc.specs.AllLexemes.{AreAllLexemesOf};
ghost use Rattle.lryacc.specs.EndTokens.{HasEndBy};
ghost use Rattle.lryacc.specs.FileProductions.{HasProductions};
ghost use Rattle.lryacc.specs.FilesRead.{ComesTo, HasBodies, HasNoGrammar};
ghost use Rattle.lryacc.specs.LinesTaken.{HasLines};
ghost use Rattle.lryacc.specs.NamedSymbols.{AreApart, ArePartnered};
ghost use Rattle.lryacc.specs.ProductionPlaces.{IsPlaced, file_places};
ghost use Rattle.lryacc.specs.SaidTaken.{AreSaid};
ghost use Rattle.lryacc.specs.Spans.{IsInside};
ghost use Rattle.lryacc.specs.Told.{HasFaults, HasPlaces, IsToldOf, told};

use crate::contents::Contents;
use crate::dialects::{Dialect, dialect_of};
use crate::faults::{Fault, FaultKind};
use crate::lexemes::Lexeme;
use crate::meaning::{Expected, Meaning};
use crate::numbering::{FileGrammar, NoProductions, file_grammar};
use crate::parsers::{Parser, parser_of};
use crate::reader::Reader;
use crate::scanner::{Scanned, scan};
use crate::useful::without_useless;
use std::alloc::{AllocError, Global};
use std::collections::BTreeMap;

/// What a file comes to.
#[derive(Debug, Drop)]
pub enum FileRead {
    /// Its grammar, without what is not reached or derives no text; how many conflicts it expects, which parser it asks for, and what
    /// it is warned of.
    Grammar(FileGrammar, Expected, Parser, Vec<Fault>),
    /// What is wrong with it: at least one fault.
    Faults(Vec<Fault>),
}

/// The faults in the order of their places, the first one at each, with places in the text.
fn in_order(alloc: Global, text: &[u8], faults: &[Fault]) -> Result<Vec<Fault>, AllocError>
    ensures inside { IfOk result (λ ordered.
        All (λ fault. IsInside fault.span text.now) ordered.items) }
    ensures told { IfOk result (λ ordered. All (IsToldOf text.now faults.now) ordered.items) }
    ensures some { IfOk result (λ ordered. 0 < length faults.now → 0 < vec_len ordered) }
{
    let mut by_place = BTreeMap::new(alloc);
    for fault in faults {
        let span = fault.span.within(text);
        let kind = fault.kind;
        if !by_place.contains_key(&span.start) {
            by_place.insert(span.start, Fault { kind, span })?;
        }
    }
    by_place.values().copied().collect(alloc)
}

/// What a file comes to that has these faults.
fn faults_read(alloc: Global, text: &[u8], faults: &[Fault]) -> Result<FileRead, AllocError>
    requires { 0 < length faults.now }
    ensures inside { IfOk result (λ read. All (λ fault. IsInside fault.span text.now) (told read)) }
    ensures faults { IfOk result HasFaults }
    ensures placed { IfOk result HasPlaces }
    ensures none { IfOk result HasNoGrammar }
{
    Ok(FileRead::Faults(in_order(alloc, text, faults)?))
}

/// Those of the faults of a file that are told: where it is one of grmtools, that alone.
fn to_tell(faults: &[Fault]) -> &[Fault]
    requires { 0 < length faults.now }
    ensures { 0 < length result.now }
{
    for at in 0..faults.len() {
        if matches!(faults[at].kind, FaultKind::OfGrmtools) {
            return &faults[at..at + 1];
        }
    }
    faults
}

/// Reads a grammar file of a dialect: its grammar, or all faults that were come by. A file that begins with `%grmtools{` is one
/// of grmtools in any case. The error says that memory was refused.
pub fn read_file(alloc: Global, text: &[u8], dialect: Dialect) -> Result<FileRead, AllocError>
    ensures inside { IfOk result (λ read. All (λ fault. IsInside fault.span text.now) (told read)) }
    ensures faults { IfOk result HasFaults }
    ensures placed { IfOk result HasPlaces }
    ensures bodies { IfOk result (ComesTo text.now dialect) }
{
    let dialect = dialect_of(text, dialect);
    let Scanned { lexemes, faults } = scan(alloc, text, dialect)?;
    let lexemes = lexemes.as_slice();
    let mut reader = Reader::new(alloc, text, dialect, lexemes, faults);
    reader.file()?;
    let Reader { contents, .. } = reader;
    if !contents.faults.is_empty() {
        return faults_read(alloc, text, to_tell(contents.faults.as_slice()));
    }
    contents_read(alloc, text, dialect, lexemes, &contents)
}

/// What a file comes to that can be read, and says this.
fn contents_read(
    alloc: Global,
    text: &[u8],
    dialect: Dialect,
    lexemes: &[Lexeme],
    contents: &Contents,
) -> Result<FileRead, AllocError>
    requires some { 0 < vec_len contents.now.alternatives }
    requires all { AreAllLexemesOf text.now dialect lexemes.now }
    ensures inside { IfOk result (λ read. All (λ fault. IsInside fault.span text.now) (told read)) }
    ensures faults { IfOk result HasFaults }
    ensures placed { IfOk result HasPlaces }
    ensures bodies { IfOk result (HasBodies text.now dialect contents.now.statements.items
        contents.now.alternatives.items) }
{
    let mut meaning = Meaning::new(alloc, text, dialect, contents)?;
    meaning.take(contents)?;
    if !meaning.faults.is_empty() {
        return faults_read(alloc, text, meaning.faults.as_slice());
    }
    match file_grammar(alloc, &meaning, contents) {
        Ok(whole) => useful_read(alloc, text, dialect, lexemes, &mut meaning, contents, whole),
        Err(NoProductions::Undefined(span)) => {
            let kind = FaultKind::Undefined(None);
            faults_read(alloc, text, &[Fault { kind, span }])
        }
        Err(NoProductions::Memory) => Err(AllocError),
    }
}

/// What a file comes to whose whole grammar this is: that without what is useless.
fn useful_read(
    alloc: Global,
    text: &[u8],
    dialect: Dialect,
    lexemes: &[Lexeme],
    meaning: &mut Meaning<'_>,
    contents: &Contents,
    whole: FileGrammar,
) -> Result<FileRead, AllocError>
    requires some { 0 < vec_len contents.now.alternatives }
    requires all { AreAllLexemesOf text.now dialect lexemes.now }
    requires text { meaning.old.symbols.text.now ≡ text.now }
    requires dialect { meaning.old.symbols.dialect ≡ dialect }
    requires apart { AreApart meaning.old.symbols }
    requires partnered { ArePartnered contents.now.statements.items meaning.old.symbols }
    requires faults { vec_len meaning.old.faults ≡ 0 }
    requires end { HasEndBy contents.now.statements.items meaning.old }
    requires lines { HasLines contents.now.statements.items meaning.old }
    requires said { AreSaid contents.now.statements.items meaning.old }
    requires aliases { AreSettled contents.now.statements.items meaning.old }
    requires places { whole.production_places.items
        ≡ file_places meaning.old.starts.items contents.now.alternatives.items }
    requires placed { IsPlaced whole }
    requires productions { HasProductions meaning.old contents.now whole }
    ensures inside { IfOk result (λ read. All (λ fault. IsInside fault.span text.now) (told read)) }
    ensures faults { IfOk result HasFaults }
    ensures placed { IfOk result HasPlaces }
    ensures bodies { IfOk result (HasBodies text.now dialect contents.now.statements.items
        contents.now.alternatives.items) }
{
    let (grammar, useless) = without_useless(alloc, whole)?;
    let (expected, is_glr) = (meaning.expected, meaning.is_glr);
    meaning.tell_useless(dialect, contents, &useless)?;
    if !meaning.faults.is_empty() {
        return faults_read(alloc, text, meaning.faults.as_slice());
    }
    let parser = parser_of(alloc, text, lexemes, is_glr)?;
    let warnings = in_order(alloc, text, meaning.warnings.as_slice())?;
    Ok(FileRead::Grammar(grammar, expected, parser, warnings))
}
