// A reply as a line of text: the code in two lowercase hex digits, the refusal or 0, five decimal numbers.
ghost use Rattle.std.specs.Prelude.{◌≡◌, ◌∷◌, ◌+◌, ◌≤◌, ◌<◌, length};
ghost use Rattle.std.proofs.lemmas.List.Edits.{sets};
ghost use Rattle.rules.specs.Commands.{hex_digit, decimal, space, spaced, line, line_text};

use types::reply::Reply;

// Room for any line: two digits, six numbers of up to twenty digits after a space each, the line's end.
pub const LINE: usize = 129;

#[tactic(auto, unfolding(rules::specs::Commands::hex_digit))]
fn hex_digit(d: u8) -> u8
    requires { d < 16 }
    ensures { result ≡ hex_digit d }
{
    if d < 10 { 48 + d } else { 87 + d }
}

// How many decimal digits a number has.
#[tactic(auto, using(crate::proofs::Digits::counted))]
fn count_digits(v: u64) -> usize
    ensures { result ≡ length (decimal v) }
{
    v.max(1).ilog10() as usize + 1
}

// The digits from the last to the first; where the text goes on.
#[tactic(auto, using(crate::proofs::Digits::all_digits, crate::proofs::Digits::at_most, crate::proofs::Digits::one_digit, crate::proofs::Texts::digit_turn), unfolding(crate::proofs::Digits::last_digits))]
fn put_decimal(out: &mut [u8], at: usize, v: u64) -> usize
    requires { at + 20 ≤ length out.old }
    ensures { (result ≡ at + length (decimal v)) × (out.new ≡ sets out.old at (decimal v)) }
{
    // most numbers of a reply have one
    if v < 10 {
        out[at] = 48 + v as u8;
        return at + 1;
    }
    let n = count_digits(v);
    let mut rest = v;
    for i in (0..n).rev() {
        out[at + i] = 48 + (rest % 10) as u8;
        rest /= 10;
    }
    at + n
}

// A number after a space.
#[tactic(auto, using(std::proofs::lemmas::Grind::common_steps))]
fn put_number(out: &mut [u8], at: usize, v: u64) -> usize
    requires { at + 21 ≤ length out.old }
    ensures { (result ≡ at + (1 + length (decimal v))) × (out.new ≡ sets out.old at (space ∷ decimal v)) }
{
    out[at] = b' ';
    put_decimal(out, at + 1, v)
}

#[tactic(auto, using(crate::proofs::Texts::all_written))]
fn put_values(out: &mut [u8], at: usize, values: [u64; 5]) -> usize
    requires { at + 105 ≤ length out.old }
    ensures { (result ≡ at + length (spaced values)) × (out.new ≡ sets out.old at (spaced values)) }
{
    let mut end = at;
    for value in &values {
        end = put_number(out, end, *value);
    }
    end
}

// The line at an offset; where the text goes on.
#[tactic(auto, using(crate::proofs::Digits::at_most, crate::proofs::Texts::line_most, std::proofs::lemmas::Grind::common_steps))]
pub fn put_line(out: &mut [u8], at: usize, code: u8, reply: Reply) -> usize
    requires { at + 129 ≤ length out.old }
    ensures value { (result ≡ at + length (line_text (line code reply))) × (out.new ≡ sets out.old at (line_text (line code reply))) }
    ensures reply_len_bound { length (line_text (line code reply)) ≤ 129 }
{
    out[at] = hex_digit(code / 16);
    out[at + 1] = hex_digit(code % 16);
    let refusal = reply.refusal as u64;
    let values = reply.values;
    let first = put_number(out, at + 2, refusal);
    let end = put_values(out, first, values);
    out[end] = b'\n';
    end + 1
}
