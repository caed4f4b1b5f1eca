// The ordering tables of modes 0 to 4, and rows and cores put in order by them, in modes 5 to 8 by the table that the user supplies.
// `put_core` and `put_row` are `pub` for the crate of the calls; they ask what the calls have judged.
#![tactic(auto)]

mod tables;

ghost use Rattle.std.specs.Prelude.{◌≡◌};
ghost use Rattle.definitions.specs.Order.{table_for};
ghost use Rattle.order_tables.specs.Ready.{RowReady, CoreReady, with_core, with_row};

use crate::tables::{TABLE_0, TABLE_1, TABLE_2, TABLE_3, TABLE_4};
use ordering::{core_by, row_by};

// The table of a mode; the sheet from mode 5 on.
#[tactic(auto, unfolding(definitions::specs::Order::order_table, definitions::specs::Tables::table0, definitions::specs::Tables::table1, definitions::specs::Tables::table2, definitions::specs::Tables::table3, definitions::specs::Tables::table4))]
fn table_of<'a>(mode: u64, sheet: &'a [u16]) -> &'a [u16]
    ensures { result.now ≡ table_for mode sheet.now }
{
    match mode {
        0 => &TABLE_0,
        1 => &TABLE_1,
        2 => &TABLE_2,
        3 => &TABLE_3,
        4 => &TABLE_4,
        _ => sheet,
    }
}

// The core of a row by its mode's table, and below the row of a core: a line each; one function for both would have these
// two lines, and a parameter for the direction besides.
#[tactic(auto, using(crate::proofs::ModeLaws::core_asked))]
pub fn put_core(mode: u64, sheet: &[u16], row: &[u8], core: &mut [u8])
    requires { RowReady mode sheet.now row.now core.old }
    ensures { core.new ≡ with_core mode sheet.now row.now core.old }
{
    core_by(table_of(mode, sheet), row, core)
}

#[tactic(auto, using(crate::proofs::ModeLaws::row_asked, crate::proofs::ModeLaws::row_put))]
pub fn put_row(mode: u64, sheet: &[u16], core: &[u8], row: &mut [u8])
    requires { CoreReady mode sheet.now core.now row.old }
    ensures { row.new ≡ with_row mode sheet.now core.now row.old }
{
    row_by(table_of(mode, sheet), core, row)
}
