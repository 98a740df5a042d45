ghost use Rattle.std.specs.Prelude.{◌≡◌, ◌++◌, IfOk, OnOk};
ghost use Rattle.stache_cases.specs.Text.{row_line, rows_text, table_text};

use crate::StacheRow;
use crate::names::{does_text, state_text, trigger_text, when_text};
use crate::rows::ROWS;
use printed_text::{Text, tag_text};
use std::alloc::Global;
use tw_base::Memory;

fn add_row(out: &mut Text, number: usize, row: StacheRow) -> Result<(), Memory>
    ensures { OnOk result (out.new ≡ out.old ++ row_line number row) }
{
    let (state, on, when) = (
        state_text(row.state),
        trigger_text(row.on),
        when_text(row.when),
    );
    let (goes, tag, does) = (state_text(row.goes), tag_text(row.tag), does_text(row.does));
    writeln!(
        out,
        "row {number} {state} {on} {when} goes {goes} tag {tag} does {does}"
    )
}

fn add_rows(out: &mut Text, rows: &[StacheRow]) -> Result<(), Memory>
    ensures { OnOk result (out.new ≡ out.old ++ rows_text rows.now) }
{
    for (number, row) in rows.iter().enumerate() {
        add_row(out, number, *row)?;
    }
    Ok(())
}

/// The text of the table: a line for each row, and a last line `end`.
pub fn table(alloc: Global) -> Result<Vec<u8>, Memory>
    ensures { IfOk result (λ text. text.items ≡ table_text) }
{
    let mut out = Text::new(alloc);
    add_rows(&mut out, &ROWS)?;
    out.add(b"end\n")?;
    Ok(out.into_vec())
}
