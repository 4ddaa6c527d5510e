use crate::field::text_under;
use crate::list::ListOf;
use crate::pick::row_at;
use crate::set::SetOf;
use crate::table::{count_rows, fill_table};
use kinds::{I64, U8};
use reply::{Reply, Spot, check};

fn whole(bytes: &[u8]) -> Reply<'_> {
    check(bytes).unwrap_or_default()
}

#[test]
fn a_short_table_is_left_as_it_was(rt: HostRuntime) {
    let reply = whole(b"$3\r\nabc\r\n");
    let mut table = [7, 8];
    let answer = fill_table(&ListOf(U8), reply, &mut table);
    assert!(rt; matches!(answer, Err(fault) if fault.number() == 26));
    assert!(rt; table[0] == 7 && table[1] == 8);
}

#[test]
fn a_list_of_two_has_no_row_two(rt: HostRuntime) {
    let reply = whole(b"*2\r\n:1\r\n:2\r\n");
    let start = Spot { at: 0, pair: false };
    assert!(rt; matches!(row_at(&ListOf(I64), reply, start, 1), Ok(2)));
    assert!(rt;
        matches!(row_at(&ListOf(I64), reply, start, 2), Err(fault) if fault.number() == 27)
    );
}

#[test]
fn a_name_has_the_last_text(rt: HostRuntime) {
    let map = whole(b"%3\r\n+a\r\n+b\r\n+c\r\n+d\r\n+a\r\n+e\r\n");
    assert!(rt; matches!(text_under(map, b"c", b"x"), Ok(text) if text == b"d".as_slice()));
    assert!(rt; matches!(text_under(map, b"a", b"x"), Ok(text) if text == b"e".as_slice()));
    assert!(rt; matches!(text_under(map, b"b", b"x"), Ok(text) if text == b"x".as_slice()));
}

#[test]
fn equal_members_are_one(rt: HostRuntime) {
    let set = whole(b"~2\r\n:5\r\n$1\r\n5\r\n");
    assert!(rt; matches!(count_rows(&SetOf(I64), set), Ok(1)));
}
