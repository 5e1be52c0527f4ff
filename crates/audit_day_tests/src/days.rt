// Days, and dossiers that belong to them.
use crew_fixtures::dossiers::Lines;
use std::alloc::{AllocError, Global};

/// The first round of a day of two, with CRLF and a quoted field: two tasks of one team at once.
pub const FIRST_ROUND: &[u8] = b"place,BASE\r
place,G1\r
travel,BASE,G1,10\r
team,\"T1\",BASE,06:00,14:00,\r
task,A,G1,07:00,07:00,30,1,\r
task,B,G1,07:00,07:00,30,1,\r
plan,1\r
";

/// Both rounds of it: in the second, A is cancelled, and B may begin later.
pub const TWO_ROUNDS: &[u8] = b"place,BASE\r
place,G1\r
travel,BASE,G1,10\r
team,\"T1\",BASE,06:00,14:00,\r
task,A,G1,07:00,07:00,30,1,\r
task,B,G1,07:00,07:00,30,1,\r
plan,1\r
cancel,A\r
move,B,07:00,08:00\r
plan,1\r
";

/// Both rounds, and a record that is refused behind them.
pub const CANCELLED_TWICE: &[u8] = b"place,BASE\r
place,G1\r
travel,BASE,G1,10\r
team,\"T1\",BASE,06:00,14:00,\r
task,A,G1,07:00,07:00,30,1,\r
task,B,G1,07:00,07:00,30,1,\r
plan,1\r
cancel,A\r
move,B,07:00,08:00\r
plan,1\r
cancel,A\r
";

/// Two teams that hardly meet at a joint task, planned twice: the second round keeps both routes of the first.
pub const PLANNED_TWICE: &[u8] = b"place,BASE
place,G1
travel,BASE,G1,10
team,T1,BASE,06:50,07:40,
team,T2,BASE,07:20,08:10,
task,J,G1,07:00,08:00,30,2,
plan,3
plan,3
";

/// A day whose second round has work that has begun: the job of A.
pub const BEGUN: &[u8] = b"place,BASE
place,G1
travel,BASE,G1,10
team,T1,BASE,06:00,14:00,
task,A,G1,07:00,07:30,30,1,
plan,1
now,07:10
plan,1
";

/// The dossier of its second round.
pub const KEPT_JOB: Lines = &[
    b"crew dossier 2",
    b"size 1 1 2 1",
    b"place BASE",
    b"place G1",
    b"travel 0 10",
    b"travel 10 0",
    b"team T1 0 360 840",
    b"task A 1 420 450 30 1",
    b"frozen 1",
    b"keep 0 420 0",
    b"pool 0 0",
    b"plan 0 0",
    b"do 0 420 0",
    b"tree 0 0 1 0",
    b"leaf bare",
    b"end",
];

/// A team and a task that it can do, in a round without a node.
pub const NO_NODE: &[u8] = b"place,BASE
place,G1
travel,BASE,G1,10
team,T1,BASE,06:00,14:00,
task,A,G1,07:00,07:30,30,1,
plan,0
";

/// The same in a round with one node.
pub const ONE_NODE: &[u8] = b"place,BASE
place,G1
travel,BASE,G1,10
team,T1,BASE,06:00,14:00,
task,A,G1,07:00,07:30,30,1,
plan,1
";

/// The same but for one minute of the task's window.
pub const ONE_MINUTE_LESS: &[u8] = b"place,BASE
place,G1
travel,BASE,G1,10
team,T1,BASE,06:00,14:00,
task,A,G1,07:00,07:29,30,1,
plan,1
";

/// Lines that stand in the place of others: their numbers, from 1.
pub type Changes = &'static [(usize, &'static [u8])];

/// What stands in the place of the line of this number.
fn changed<'a>(changes: Changes, number: usize, line: &'a [u8]) -> &'a [u8] {
    for (at, other) in changes {
        if *at == number {
            return other;
        }
    }
    line
}

/// The text of these lines, some of which are changed.
pub fn text_with(alloc: Global, lines: Lines, changes: Changes) -> Result<Vec<u8>, AllocError> {
    let mut text = Vec::new(alloc);
    for (n, line) in lines.iter().enumerate() {
        text.extend_from_slice(changed(changes, n + 1, line))?;
        text.push(b'\n')?;
    }
    Ok(text)
}
