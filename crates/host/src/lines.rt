// The lines that the host says as it begins. A write that fails ends nothing here: whoever reads has gone, and the input ends.
use sheet::{print_form, print_text};

pub(crate) fn began(rt: HostRuntime) {
    let _ = print_text(&mut rt.stdout(), b"began\n");
}

pub(crate) fn cut(rt: HostRuntime, bytes: u32) {
    let _ = print_form(&mut rt.stdout(), b"cut #\n", &[bytes]);
}

pub(crate) fn resumed(rt: HostRuntime, records: u32, bytes: u32, open: bool) {
    if open {
        let _ = print_form(&mut rt.stdout(), b"resumed # # open\n", &[records, bytes]);
        return;
    }
    let _ = print_form(&mut rt.stdout(), b"resumed # # idle\n", &[records, bytes]);
}

pub(crate) fn usage(rt: HostRuntime) {
    let _ = eprintln!(rt; "usage: host RECORDING [--switched-on | --resume]");
    serving::failed(rt);
}
