//! How many FISes of each connection of each port were taken.

ghost use Rattle.std.specs.Prelude.{◌≡◌, ◌<◌, ◌≤◌, ◌^◌, IfSome, length, slice_index_or, OnOk};
ghost use Rattle.std.specs.Vec.{vec_capacity, vec_len};
ghost use Rattle.host_thread.specs.Tally.{CountsOne, count_on, no_row};

use std::alloc::AllocError;

/// How many FISes of one connection of one port were taken.
#[derive(Clone, Copy, Debug, PartialEq, Eq)]
pub struct Row {
    pub(crate) port: u8,
    pub(crate) conn: u32,
    pub(crate) count: u64,
}

/// Makes room for one more row.
pub(crate) fn make_room(rows: &mut Vec<Row>) -> Result<(), AllocError>
    ensures rows { rows.new.items ≡ rows.old.items }
    ensures room { OnOk result (vec_len rows.new < vec_capacity rows.new) }
{
    rows.reserve(1)
}

/// The place of the row of this connection.
fn place_of(rows: &[Row], port: u8, conn: u32) -> Option<usize>
    ensures there { IfSome result (λ i. i < length rows.now) }
    ensures port { IfSome result (λ i. (slice_index_or rows.now i no_row).port ≡ port) }
    ensures conn { IfSome result (λ i. (slice_index_or rows.now i no_row).conn ≡ conn) }
{
    for i in 0..rows.len() {
        if rows[i].port == port && rows[i].conn == conn {
            return Some(i);
        }
    }
    None
}

/// Counts one more FIS.
pub(crate) fn note(rows: &mut Vec<Row>, port: u8, conn: u32)
    requires room { vec_len rows.old < vec_capacity rows.old }
    requires few { count_on port conn rows.old.items < 2 ^ 32 }
    ensures { CountsOne port conn rows.old.items rows.new.items }
{
    match place_of(rows.as_slice(), port, conn) {
        Some(i) => {
            let row = rows[i];
            rows[i] = Row {
                count: row.count + 1,
                ..row
            };
        }
        None => rows.push_reserved(Row {
            port,
            conn,
            count: 1,
        }),
    }
}

/// How many were taken of this connection.
pub(crate) fn taken_on(rows: &[Row], port: u8, conn: u32) -> u64
    requires { count_on port conn rows.now ≤ 2 ^ 32 }
    ensures { result ≡ count_on port conn rows.now }
{
    let mut sum = 0;
    for row in rows {
        if row.port == port && row.conn == conn {
            sum += row.count;
        }
    }
    sum
}
