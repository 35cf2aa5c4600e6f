// Each export once, on the first booking of the documents' working day: that it succeeds, which no contract can say where memory may be lacking.
use crate::exported::{fabric_run, sheet_run};

#[test]
fn sheet_is_served(rt: HostRuntime) {
    let mut out = [7u8; 12];
    let bytes = sheet_run(rt.alloc(), b"reserve 1 7 20 0\n", &mut out);
    assert_eq!(rt; bytes, 10);
    assert_eq!(rt; out, *b"ok 8 20 8\n\x07\x07");
}

#[test]
fn script_is_run(rt: HostRuntime) {
    // Start, and then a reserve of session 1 at level 7 with weight 20 along port 0.
    let script = [0, 1, 0, 0, 0, 1, 0, 0, 0, 7, 0, 0, 0, 20, 1, 0];
    let mut out = [7u8; 32];
    let bytes = fabric_run(&script, &mut out);
    assert_eq!(rt; bytes, 14);
    let mut want = [7u8; 32];
    want[0..14].copy_from_slice(&[0, 0, 0, 0, 0, 8, 0, 0, 0, 20, 0, 0, 0, 8]);
    assert_eq!(rt; out, want);
}
