//! What no clause says: that the definition has the numbers that people write.

use crate::decimal_number;

#[test]
fn digits_are_a_number(rt: HostRuntime) {
    assert!(rt; decimal_number(b"0") == Some(0));
    assert!(rt; decimal_number(b"907") == Some(907));
    assert!(rt; decimal_number(b"18446744073709551615") == Some(18446744073709551615));
}

#[test]
fn other_texts_are_none(rt: HostRuntime) {
    assert!(rt; decimal_number(b"18446744073709551616") == None);
    assert!(rt; decimal_number(b"007") == None);
    assert!(rt; decimal_number(b"+7") == None);
    assert!(rt; decimal_number(b"-7") == None);
    assert!(rt; decimal_number(b"7 ") == None);
    assert!(rt; decimal_number(b"7\xff") == None);
    assert!(rt; decimal_number(b"") == None);
}
