use super::*;

#[test]
fn integers(rt: HostRuntime) {
    assert_eq!(rt; read_integer(b"-9223372036854775808"), Some(i64::MIN));
    assert_eq!(rt; read_integer(b"007"), None);
}

#[test]
fn doubles(rt: HostRuntime) {
    assert!(rt; is_double(b"+1.5E-3"));
    assert!(rt; !is_double(b"1.e5"));
}
