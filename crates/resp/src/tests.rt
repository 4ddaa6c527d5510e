use crate::{Case, WireFault, WireReason, case_of, walk};

fn refused(reason: WireReason, place: usize) -> Result<usize, WireFault> {
    Err(WireFault { reason, place })
}

#[test]
fn wholes(rt: HostRuntime) {
    assert_eq!(rt; walk(b"+OK\r\n:5\r\n"), Ok(5));
    assert_eq!(rt; walk(b"%1\r\n$1\r\nk\r\n*2\r\n#t\r\n,1.5e3\r\n"), Ok(27));
    assert_eq!(rt; walk(b"|1\r\n+a\r\n+b\r\n:130\r\n"), Ok(18));
    assert_eq!(rt; walk(b">2\r\n+message\r\n_\r\n"), Ok(17));
}

#[test]
fn faults(rt: HostRuntime) {
    assert_eq!(rt; walk(b"?1\r\n"), refused(WireReason::UnknownKind, 0));
    assert_eq!(rt;
        walk(b"*2\r\n:1\r\n:2\n"),
        refused(WireReason::BrokenLine, 8)
    );
    assert_eq!(rt; walk(b"=3\r\nabc"), refused(WireReason::NotWhole, 7));
    assert_eq!(rt; walk(b"=3\r\nabc\r\n"), refused(WireReason::Content, 0));
    assert_eq!(rt; walk(b">1\r\n:1\r\n"), refused(WireReason::Content, 4));
    assert_eq!(rt; walk(b"!3\r\na\xffb\r\n"), refused(WireReason::NotUtf8, 5));
}

#[test]
fn cases(rt: HostRuntime) {
    assert_eq!(rt; case_of(b"+OK\r\n"), Some(Case::Okay));
    assert_eq!(rt; case_of(b"+OKAY\r\n"), Some(Case::SimpleString));
    assert_eq!(rt; case_of(b"*-1\r\n"), Some(Case::Nil));
    assert_eq!(rt; case_of(b"!1\r\nx\r\n"), Some(Case::ServerError));
}
