use crate::part::Part;
use crate::spot::Spot;
use crate::view::Reply;
use crate::whole::check;

fn whole(bytes: &[u8]) -> Reply<'_> {
    check(bytes).unwrap_or_default()
}

#[test]
fn one_attribute_is_unwrapped(rt: HostRuntime) {
    let reply = whole(b"|1\r\n+a\r\n+b\r\n:130\r\n");
    assert!(rt; reply.integer().is_none());
    let data = reply.unwrapped();
    assert!(rt; data.spot().at == 12);
    assert!(rt; data.integer() == Some(130));
}

#[test]
fn a_map_has_pairs(rt: HostRuntime) {
    let mut pairs = whole(b"%1\r\n+a\r\n:5\r\n").items();
    let pair = pairs.next().expect(&rt, "a pair");
    assert!(rt; pair.spot() == Spot { at: 4, pair: true });
    assert!(rt; pair.key().text_part() == Part { start: 5, len: 1 });
    assert!(rt; pair.value().integer() == Some(5));
    assert!(rt; pairs.len() == 0 && pairs.next().is_none());
}

#[test]
fn keys_and_values_in_turn(rt: HostRuntime) {
    let map = whole(b"%1\r\n+a\r\n:5\r\n");
    let mut halves = map.flat();
    assert!(rt; halves.len() == 2);
    assert!(rt; matches!(halves.next(), Some(key) if key.text() == b"a".as_slice()));
    assert!(rt; matches!(halves.next(), Some(value) if value.integer() == Some(5)));
}

#[test]
fn a_verbatim_string_has_a_format(rt: HostRuntime) {
    let reply = whole(b"=5\r\ntxt:a\r\n");
    assert!(rt; reply.format() == b"txt".as_slice());
    assert!(rt; reply.text() == b"a".as_slice());
}

#[test]
fn a_place_is_found(rt: HostRuntime) {
    let reply = whole(b"*2\r\n:1\r\n%1\r\n+a\r\n:5\r\n");
    let pair = reply.find(Spot { at: 12, pair: true });
    assert!(rt; matches!(pair, Some(pair) if pair.value().integer() == Some(5)));
    let key = reply.find(Spot {
        at: 12,
        pair: false,
    });
    assert!(rt; matches!(key, Some(key) if key.spot().at == 12));
    assert!(rt; reply.find(Spot { at: 5, pair: false }).is_none());
}
