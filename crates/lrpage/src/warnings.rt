//! What a file is warned of, with its places.

use crate::pages::Page;
use lrdiagnostics::{Message, add_escaped_name};
use lrwriter::Text;
use std::alloc::AllocError;

/// How many places of a warning are shown at the most before it is opened.
const SHOWN: usize = 20;

impl Page<'_> {
    /// Adds what is told of places: its words, and the lines of the places, of which the first ones are seen at once.
    fn add_warning(&self, page: &mut Text, message: &Message) -> Result<(), AllocError> {
        page.add("<div class=\"part\"><p>");
        add_escaped_name(page, message.words.as_str());
        page.add("</p>\n");
        let places = message.places.as_slice();
        let (first, others) = places.split_at(SHOWN.min(places.len()));
        self.add_lines(page, first)?;
        let more = others.len();
        if more > 0 {
            write!(
                page,
                "<details class=\"more\"><summary>and {more} more</summary>\n"
            );
            self.add_lines(page, others)?;
            page.add("</details>\n");
        }
        page.add("</div>\n");
        Ok(())
    }

    /// Adds what the file is warned of, if of something.
    pub(crate) fn add_warnings(&self, page: &mut Text) -> Result<(), AllocError> {
        if self.warnings.is_empty() {
            return Ok(());
        }
        page.add("<section id=\"warnings\"><h2>Warnings</h2>\n");
        for message in self.warnings {
            self.add_warning(page, message)?;
        }
        page.add("</section>\n");
        Ok(())
    }
}
