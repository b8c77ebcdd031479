//! Drawings of trees, a line a node.

use lrdiagnostics::add_shown;
use lrevidence::{ShownTree, Visit, node_name};
use lrwriter::Text;
use lryacc::FileGrammar;
use std::alloc::AllocError;

/// What lines of trees are drawn with.
#[derive(Clone, Copy)]
struct Pen {
    /// Before a node that has others behind it.
    branch: &'static str,
    /// Before the last one.
    end: &'static str,
    /// Before what stands below a node that has others behind it.
    past: &'static str,
    /// Where nodes are left out.
    cut: &'static str,
}

/// Box drawing characters.
const BOXES: Pen = Pen {
    branch: "├─ ",
    end: "└─ ",
    past: "│  ",
    cut: "… ",
};

/// Characters of ASCII.
const PLAIN: Pen = Pen {
    branch: "|- ",
    end: "`- ",
    past: "|  ",
    cut: "... ",
};

/// A tree that is drawn.
#[derive(Clone, Copy)]
struct Drawing<'a> {
    file: &'a FileGrammar,
    shown: &'a ShownTree,
    pen: Pen,
    indent: usize,
}

impl Drawing<'_> {
    /// Adds the line of a node below those of which it is told whether they are the last of their row; the highest one is in no row.
    /// One above which others are left out stands right before the one above these.
    fn push_line(&self, text: &mut Text, number: usize, above: &[bool], has_dot: bool) {
        text.add_times(' ', self.indent);
        for is_last in above.iter().skip(1) {
            text.add(if *is_last { "   " } else { self.pen.past });
        }
        if !above.is_empty() {
            let is_last = self.shown.tree.is_last(number);
            text.add(if is_last {
                self.pen.end
            } else {
                self.pen.branch
            });
        }
        if has_dot {
            text.add(". ");
        }
        if self.shown.is_cut(number.saturating_add(1)) {
            text.add(self.pen.cut);
        }
        add_shown(text, node_name(self.file, &self.shown.tree, number));
        text.add_char('\n');
    }
}

/// What stands in brackets where nodes are left out.
pub(crate) fn cut_mark(is_plain: bool) -> &'static str {
    if is_plain { PLAIN.cut } else { BOXES.cut }
}

/// Adds the drawing of a tree behind so many blanks, with the dot before that leaf.
pub fn push_drawing(
    text: &mut Text,
    file: &FileGrammar,
    shown: &ShownTree,
    dot: usize,
    indent: usize,
    is_plain: bool,
) -> Result<(), AllocError> {
    let drawing = Drawing {
        file,
        shown,
        pen: if is_plain { PLAIN } else { BOXES },
        indent,
    };
    let visits = shown.tree.visits(text.allocator())?;
    let mut above = Vec::new(text.allocator());
    let mut leaves: usize = 0;
    for visit in &visits {
        match visit {
            Visit::Enter(number) => {
                drawing.push_line(text, *number, above.as_slice(), false);
                above.push(shown.tree.is_last(*number))?;
            }
            Visit::Leaf(number) => {
                drawing.push_line(text, *number, above.as_slice(), leaves == dot);
                leaves = leaves.saturating_add(1);
            }
            Visit::Leave(_) => {
                let _ = above.pop();
            }
        }
    }
    Ok(())
}
