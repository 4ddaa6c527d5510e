use super::*;

fn float(text: &[u8]) -> f64 {
    read_float(text).unwrap_or(f64::NAN)
}

fn fault(text: &[u8]) -> Option<FloatFault> {
    read_float(text).err()
}

#[test]
fn wholes(rt: HostRuntime) {
    assert_eq!(rt; read_whole(b"-007", true), Some(-7));
    assert_eq!(rt; read_whole(b"+7", false), Some(7));
    assert_eq!(rt; read_whole(b"-5", false), None);
}

#[test]
fn decimals(rt: HostRuntime) {
    assert!(rt; float(b"-.5e+1") == -5.0);
    assert!(rt; float(b"3.E-1") == 0.3);
    assert!(rt; 1.0 / float(b"-0") == f64::NEG_INFINITY);
    assert_eq!(rt; fault(b"-iNf"), Some(FloatFault::Inexact));
    assert_eq!(rt; fault(b".e5"), Some(FloatFault::NotNumber));
}

#[test]
fn floats(rt: HostRuntime) {
    assert_eq!(rt;
        whole_of(-9223372036854775808.0),
        Some(-9223372036854775808)
    );
    assert_eq!(rt; whole_of(18446744073709551616.0), None);
    assert!(rt; exact_float(9007199254740993).is_none());
}
