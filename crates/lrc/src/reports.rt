//! The report on a grammar text.

use crate::answers::Problem;
use lrreport::{Dialect, Options, Output, Report, report_on};
use std::alloc::Global;

/// The name by which reports call the text, as `lrcheck` does where it reads standard input.
const NAME: &str = "-";

/// How many steps a search for a sentence with two trees takes, as in `lrcheck` where nothing else is said.
const STEPS: usize = 10_000;

/// How the report of a kind is made; None where there is no such kind.
fn options_of(kind: u32) -> Option<Options> {
    let output = match kind {
        0 => Output::Report,
        1 | 3 => Output::Summary,
        2 => Output::Json { has_grammar: true },
        _ => return None,
    };
    Some(Options {
        output,
        steps: STEPS,
        makes_page: kind == 3,
        dialect: Dialect::Bison,
        ..Options::default()
    })
}

/// The bytes of the report of a kind on a grammar text.
pub(crate) fn report_of(alloc: Global, text: &[u8], kind: u32) -> Result<Vec<u8>, Problem> {
    let Some(options) = options_of(kind) else {
        return Err(Problem::Input);
    };
    let Report { text, page, .. } = report_on(alloc, NAME, text, options)?;
    if !options.makes_page {
        return Ok(text.into_bytes());
    }
    match page {
        Some(page) => Ok(page.into_bytes()),
        None => Err(Problem::Input),
    }
}
