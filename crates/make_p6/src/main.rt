// Prints the file of the example register of ten rows, two columns of 11 and 3 bits, as the writer makes it. Where not all of
// it can be written it says so on standard error.
#![tactic(auto)]

fn main(rt: HostRuntime) {
    let widths = [11u8, 3];
    let codes = [
        100u64, 5, 511, 4, 512, 4, 513, 1, 2047, 5, 0, 5, 600, 0, 300, 5, 520, 5, 515, 5,
    ];
    // as long as the file
    let mut out = [0u8; 62];
    if writer::write(10, &widths, &codes, &mut out).is_err() {
        return;
    }
    if let Err(stopped) = putting::put_all(&rt, &mut rt.stdout(), &out) {
        putting::fail(&rt, "make_p6: the file is not whole", &stopped.error);
        return;
    }
    if let Err(error) = putting::saved(&rt) {
        putting::fail(
            &rt,
            "make_p6: the file may not be whole, saving it failed",
            &error,
        );
    }
}
