// Tests of words, numbers, clocks and rows.
use crate::asserts::{holds_at, same, same_at};
use field_table::{
    Cause, Cuts, Field, FieldFault, Kind, Row, Schema, Words, fields, read_at, read_clock,
    read_number, write_clock, write_number,
};
use std::process::Abort;
use std::test::Fail;

/// Asserts the words of a line.
fn assert_words(rt: &impl Abort, cuts: &mut Cuts, line: &[u8], wanted: &[&[u8]]) {
    assert!(rt; line.len() <= 100);
    let words = cuts.split(line);
    same(rt, &words.count(), &wanted.len());
    for (n, word) in wanted.iter().enumerate() {
        holds_at(rt, n < words.count() && words.word(n) == *word, &n);
    }
}

/// Asserts the numbers of the words of a line, as many as are wanted.
fn assert_numbers(rt: &impl Abort, cuts: &mut Cuts, line: &[u8], wanted: &[Option<i64>]) {
    assert!(rt; line.len() <= 100);
    let words = cuts.split(line);
    same(rt, &words.count(), &wanted.len());
    for (n, number) in wanted.iter().enumerate() {
        holds_at(rt, n < words.count() && words.number(n) == *number, &n);
    }
}

/// Asserts the first word of a line of 41 words, the number that it spells, and that the last word is 7.
fn assert_first(rt: &impl Abort, cuts: &mut Cuts, line: &[u8], word: &[u8], number: Option<i64>) {
    assert!(rt; line.len() <= 200);
    let words = cuts.split(line);
    same_at(rt, &words.count(), &41, &word);
    assert!(rt; words.count() == 41);
    holds_at(rt, words.word(0) == word, &word);
    same_at(rt, &words.number(0), &number, &word);
    same_at(rt, &words.number(40), &Some(7), &word);
}

#[test]
fn cuts_at_each_space(rt: HostRuntime) -> Result<(), Fail> {
    let mut cuts = Cuts::new(rt.alloc())?;
    assert_words(
        &rt,
        &mut cuts,
        b"size 4  2 ",
        &[b"size", b"4", b"", b"2", b""],
    );
    Ok(())
}

#[test]
fn reads_each_words_number(rt: HostRuntime) -> Result<(), Fail> {
    let mut cuts = Cuts::new(rt.alloc())?;
    assert_numbers(
        &rt,
        &mut cuts,
        b"size 4 -70 007 9x  999999999999999999 9223372036854775807 9223372036854775808",
        &[
            None,
            Some(4),
            Some(-70),
            None,
            None,
            None,
            Some(999_999_999_999_999_999),
            Some(i64::MAX),
            None,
        ],
    );
    assert_numbers(&rt, &mut cuts, b"0 -0", &[Some(0), None]);
    Ok(())
}

/// Words, and the number that each spells, if any.
const FORMS: [(&[u8], Option<i64>); 21] = [
    (b"", None),
    (b"7", Some(7)),
    (b"10", Some(10)),
    (b"1440", Some(1440)),
    (b"00", None),
    (b"07", None),
    (b"-", None),
    (b"-0", None),
    (b"-1", Some(-1)),
    (b"12x", None),
    (b"x12", None),
    (b"1-2", None),
    (b"+1", None),
    (b"12345678901234567", Some(12_345_678_901_234_567)),
    (b"123456789012345678", Some(123_456_789_012_345_678)),
    (b"012345678901234567", None),
    (b"12345678901234567x", None),
    (b"123456789012345678x", None),
    (b"1234567890123456789", Some(1_234_567_890_123_456_789)),
    (b"9999999999999999999", None),
    (b"-9223372036854775808", Some(i64::MIN)),
];

#[test]
fn reads_the_number_of_each_form_of_word(rt: HostRuntime) -> Result<(), Fail> {
    let mut cuts = Cuts::new(rt.alloc())?;
    for (word, number) in FORMS {
        assert_numbers(&rt, &mut cuts, word, &[number]);
    }
    Ok(())
}

#[test]
fn reads_the_same_numbers_at_the_front_of_a_long_line(rt: HostRuntime) -> Result<(), Fail> {
    let alloc = rt.alloc();
    let mut cuts = Cuts::new(alloc)?;
    for (word, number) in FORMS {
        let mut line = Vec::from_slice(alloc, word)?;
        for _ in 0..40 {
            line.extend_from_slice(b" 7")?;
        }
        assert_first(&rt, &mut cuts, &line, word, number);
    }
    Ok(())
}

#[test]
fn reads_numbers_before_a_space_as_at_the_end(rt: HostRuntime) -> Result<(), Fail> {
    let mut cuts = Cuts::new(rt.alloc())?;
    let line = b" 123456789012345678 1234567890123456789 10 0 00 2x 3 ";
    let number = Some(1_234_567_890_123_456_789);
    assert_numbers(
        &rt,
        &mut cuts,
        line,
        &[
            None,
            Some(123_456_789_012_345_678),
            number,
            Some(10),
            Some(0),
            None,
            None,
            Some(3),
            None,
        ],
    );
    let words: [&[u8]; 9] = [
        b"",
        b"123456789012345678",
        b"1234567890123456789",
        b"10",
        b"0",
        b"00",
        b"2x",
        b"3",
        b"",
    ];
    assert_words(&rt, &mut cuts, line, &words);
    Ok(())
}

#[test]
fn reads_numbers(rt: HostRuntime) {
    for (word, number) in [
        (b"0".as_slice(), 0),
        (b"-1", -1),
        (b"-840000000000000", -840_000_000_000_000),
        (b"9223372036854775807", i64::MAX),
        (b"-9223372036854775808", i64::MIN),
    ] {
        same(&rt, &read_number(word), &Some(number));
    }
}

#[test]
fn refuses_other_spellings_of_numbers(rt: HostRuntime) {
    for word in [
        b"".as_slice(),
        b"-",
        b"-0",
        b"00",
        b"01",
        b"-01",
        b"+1",
        b" 1",
        b"1x",
        b"1\r",
        b"--1",
        b"9223372036854775808",
        b"-9223372036854775809",
        b"99999999999999999999",
    ] {
        assert!(rt; read_number(word).is_none());
    }
}

#[test]
fn reads_clocks(rt: HostRuntime) {
    for (word, minute) in [
        (b"00:00", 0),
        (b"23:59", 1439),
        (b"48:00", 2880),
        (b"99:59", 5999),
    ] {
        same(&rt, &read_clock(word), &Some(minute));
    }
}

#[test]
fn refuses_other_spellings_of_clocks(rt: HostRuntime) {
    for word in [
        b"07:60".as_slice(),
        b"7:00",
        b"07:0",
        b"07.00",
        b"",
        b"07:000",
        b"0x:00",
        b"07:0 ",
    ] {
        assert!(rt; read_clock(word).is_none());
    }
}

fn is_read_back(n: i64, length: usize) -> bool {
    let mut room = [b'x'; 20];
    let written = write_number(n, &mut room);
    written == length && read_number(&room[..written]) == Some(n)
}

#[test]
fn writes_numbers(rt: HostRuntime) {
    let mut room = [0u8; 20];
    same(&rt, &write_number(i64::MIN, &mut room), &20);
    assert!(rt; room.as_slice() == b"-9223372036854775808".as_slice());
    assert!(rt; is_read_back(0, 1));
    assert!(rt; is_read_back(-1, 2));
    assert!(rt; is_read_back(i64::MAX, 19));
    assert!(rt; is_read_back(i64::MIN, 20));
}

#[test]
fn writes_clocks(rt: HostRuntime) {
    let mut room = [0u8; 5];
    write_clock(2880, &mut room);
    assert!(rt; room.as_slice() == b"48:00".as_slice());
    write_clock(467, &mut room);
    assert!(rt; room.as_slice() == b"07:47".as_slice());
    for n in 0..2881u32 {
        write_clock(n, &mut room);
        same(&rt, &read_clock(&room), &Some(n as i64));
    }
}

const NAME: Field = Field {
    low: 1,
    high: 32,
    kind: Kind::Name,
};

const MINUTE: Field = Field {
    low: 0,
    high: 2880,
    kind: Kind::Clock,
};

const LEVEL: Field = Field {
    low: -5,
    high: 5,
    kind: Kind::Number,
};

const TRIP: Row<3> = Row {
    fields: [NAME, MINUTE, LEVEL],
};

/// What the row makes of a line: its numbers, or its fault.
fn reads(cuts: &mut Cuts, line: &[u8]) -> Result<[i64; 3], FieldFault> {
    if line.len() > 100 {
        return Ok([0, 0, 0]);
    }
    TRIP.read(&cuts.split(line))
}

fn fault(place: usize, cause: Cause) -> Result<[i64; 3], FieldFault> {
    Err(FieldFault { place, cause })
}

#[test]
fn reads_rows(rt: HostRuntime) -> Result<(), Fail> {
    let mut cuts = Cuts::new(rt.alloc())?;
    for (line, told) in [
        (b"trip LH-42 07:47 -5".as_slice(), Ok([5, 467, -5])),
        (b"trip a 48:00 5 and more", Ok([1, 2880, 5])),
        (b"trip a 48:00", fault(3, Cause::Count)),
        (b"", fault(1, Cause::Count)),
        (b"trip LH*42 07:60 05", fault(1, Cause::Spelling)),
        (b"trip a 48:01 05", fault(2, Cause::Range)),
        (b"trip a 99:60 6", fault(2, Cause::Spelling)),
        (b"trip a 00:00 6", fault(3, Cause::Range)),
        (b"trip a 00:00 -6", fault(3, Cause::Range)),
        (b"trip a 00:00 06", fault(3, Cause::Spelling)),
        (
            b"trip a 00:00 9223372036854775808",
            fault(3, Cause::Spelling),
        ),
        (b"trip  00:00 0", fault(1, Cause::Spelling)),
    ] {
        same(&rt, &reads(&mut cuts, line), &told);
    }
    Ok(())
}

#[test]
fn reads_a_word_alone(rt: HostRuntime) -> Result<(), Fail> {
    let mut cuts = Cuts::new(rt.alloc())?;
    let words = cuts.split(b"07:47 3");
    same(&rt, &read_at(&words, 0, &MINUTE), &Ok(467));
    same(&rt, &read_at(&words, 1, &LEVEL), &Ok(3));
    let fault = FieldFault {
        place: 1,
        cause: Cause::Spelling,
    };
    same(&rt, &read_at(&words, 1, &MINUTE), &Err(fault));
    Ok(())
}

fn task_and_start(words: &impl Words, past: i64) -> Result<(i64, i64), FieldFault> {
    fields!(words, task: Number(0, if past > i64::MIN { past - 1 } else { past }), start: MINUTE);
    Ok((task, start))
}

fn start_or_place(words: &impl Words) -> Result<i64, usize> {
    fields!(words, task: Number(0, 4), start: MINUTE; else fault => fault.place);
    Ok(task + start)
}

#[test]
fn names_its_fields(rt: HostRuntime) -> Result<(), Fail> {
    let mut cuts = Cuts::new(rt.alloc())?;
    let words = cuts.split(b"do 4 07:47");
    same(&rt, &task_and_start(&words, 5), &Ok((4, 467)));
    let fault = FieldFault {
        place: 1,
        cause: Cause::Range,
    };
    same(&rt, &task_and_start(&words, 4), &Err(fault));
    same(&rt, &start_or_place(&words), &Ok(471));
    let words = cuts.split(b"do 4 07:7");
    same(&rt, &start_or_place(&words), &Err(2));
    Ok(())
}

const DAY: Schema = Schema {
    keys: &["PLACE", "TRAVEL", "TASK", "TRAVEL"],
};

#[test]
fn finds_keys(rt: HostRuntime) {
    for (key, place) in [
        (b"PLACE".as_slice(), Some(0)),
        (b"TRAVEL", Some(1)),
        (b"TASK", Some(2)),
        (b"TASKS", None),
        (b"", None),
    ] {
        same(&rt, &DAY.find(key), &place);
    }
}
