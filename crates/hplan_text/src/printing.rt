ghost use Rattle.std.specs.Prelude.{◌∷◌, [], ◌++◌, map, decimal};
ghost use Rattle.hplan_text.specs.HPlanText.{words_text, words_behind, line_words, node_words, row_text, line_rows, node_rows, hplan_text};
ghost use Rattle.text_forms.specs.sheets.Sheets.{Wrote};

use crate::values::{HLine, HNode, HPlan};
use htn_base::Text;
use itoa::Buffer;
use text_forms::sheets::Sheet;

// Puts an id, in decimal digits.
fn put_id(id: u64, sheet: &mut Sheet<'_>)
    ensures { Wrote (decimal id) sheet.old sheet.new }
{
    let mut buffer = Buffer::new();
    sheet.put(buffer.format(id).as_bytes());
}

// Puts each id behind a blank, and ends the line.
fn put_ids(ids: &[u64], sheet: &mut Sheet<'_>)
    ensures { Wrote (words_behind (map decimal ids.now) ++ 10 ∷ []) sheet.old sheet.new }
{
    for id in ids {
        sheet.put(b" ");
        put_id(*id, sheet);
    }
    sheet.put(b"\n");
}

// Puts each argument behind a blank.
fn put_args(args: &[Text], sheet: &mut Sheet<'_>)
    ensures { Wrote (words_behind args.now) sheet.old sheet.new }
{
    for arg in args {
        sheet.put(b" ");
        sheet.put(arg.as_slice());
    }
}

// Puts the words of a task.
fn put_task(line: &HLine, sheet: &mut Sheet<'_>)
    ensures { Wrote (words_text (line_words line.now)) sheet.old sheet.new }
{
    put_id(line.id, sheet);
    sheet.put(b" ");
    sheet.put(line.name.as_slice());
    put_args(line.args.as_slice(), sheet);
}

// Puts a decomposed task on a line of its own.
fn put_node(node: &HNode, sheet: &mut Sheet<'_>)
    ensures { Wrote (row_text (node_words node.now)) sheet.old sheet.new }
{
    put_task(&node.line, sheet);
    sheet.put(b" -> ");
    sheet.put(node.method.as_slice());
    put_ids(node.ids.as_slice(), sheet);
}

// Puts each primitive task on a line of its own.
fn put_primitives(lines: &[HLine], sheet: &mut Sheet<'_>)
    ensures { Wrote (line_rows lines.now) sheet.old sheet.new }
{
    for line in lines {
        put_task(line, sheet);
        sheet.put(b"\n");
    }
}

// Puts each decomposed task on a line of its own.
fn put_nodes(nodes: &[HNode], sheet: &mut Sheet<'_>)
    ensures { Wrote (node_rows nodes.now) sheet.old sheet.new }
{
    for node in nodes {
        put_node(node, sheet);
    }
}

/// Puts a plan on a sheet: `==>`, the primitive tasks, the ids of the root, the decomposed tasks and `<==`, each on a line of
/// its own, with one blank between words.
pub fn print(plan: &HPlan, sheet: &mut Sheet<'_>)
    ensures printed { Wrote (hplan_text plan.now) sheet.old sheet.new }
{
    sheet.put(b"==>\n");
    put_primitives(plan.primitives.as_slice(), sheet);
    sheet.put(b"root");
    put_ids(plan.root.as_slice(), sheet);
    put_nodes(plan.nodes.as_slice(), sheet);
    sheet.put(b"<==\n");
}
