// What the finder program of document 01 prints, as one function over slices: it splits the input into phrase and text, and has their answer laid out, or one refusal.
// It depends on `finder_answer` for the lines of the engines, on `finder_lines` and `pieces` for the refusal of a long input and for what is laid out, and on `matching` for the
// refusal's name and for case analysis. The program `finder` only reads and writes.
// The contract is an equation for every input (specs/Printed.antt); the output's size is shown to be enough (proofs/Fits.antt), so no line is ever left out.
#![tactic(auto)]

ghost use Rattle.std.specs.Prelude.{◌≡◌, ◌==◌, position};
ghost use Rattle.finder_output.specs.Printed.{Printed};

use matching::Refusal;

// The longest input that is answered: a phrase of 1,024 bytes, byte 10, and a text of 32,768.
const LONGEST_INPUT: usize = 33793;

// The size of the output that is asked for.
const OUTPUT_SIZE: usize = 262144;

// Where the phrase ends: at the first byte 10, where there is one.
fn phrase_end(input: &[u8]) -> Option<usize>
    ensures { result ≡ position (λ b. b == 10) input.now }
{
    input.iter().position(|b| *b == b'\n')
}

// Puts what the finder prints for an input at the output's front: how many bytes these are. An output below 262,144 bytes stays as it is, and 0 is given back.
// The 0 stays a number: `Printed`, which docs/ARCHITECTURE.md names, promises it.
pub fn print_answer(input: &[u8], output: &mut [u8]) -> usize
    ensures { Printed input.now output.old result output.new }
{
    if output.len() < OUTPUT_SIZE {
        return 0;
    }
    if LONGEST_INPUT < input.len() {
        return finder_lines::put_refused(output, 0, Refusal::LongText.into());
    }
    let end = phrase_end(input).unwrap_or(input.len());
    let start = (end + 1).min(input.len());
    finder_answer::put_answer(&input[..end], &input[start..], output)
}
