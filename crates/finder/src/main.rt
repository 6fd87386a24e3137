// The finder program of document 01: it reads standard input and writes what is printed for it.
// It depends on `finder_output`, whose contract says what that is for every input, and on `io` to read and write.
#![tactic(auto)]

// An input above 33,793 bytes is refused, so one byte more than that is enough to read. The output holds all that is ever printed (`printed-fits` of `finder_output`), so the
// length given back needs no test.
fn main() {
    let mut input = [0; 33794];
    let mut output = [0; 262144];
    let got = io::read_full(0, &mut input);
    let length = finder_output::print_answer(&input[..got], &mut output);
    io::write_all(1, &output[..length]);
}
