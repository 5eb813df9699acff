#![tactic(auto)]
// Holds sha256::hash against published vectors, and writes how many there were and how many agreed: NIST's CAVP files of short and long
// messages for byte-oriented implementations of SHA-256, and the million 'a' of the standard's examples.
//
// data/ has the two files as they were published (they are also in Debian's package python3-cryptography-vectors). After some lines of
// comment a vector is three lines, `Len = BITS`, `Msg = HEX` and `MD = HEX`, and a blank line.
mod hex;
mod lines;

ghost use Rattle.std.specs.Prelude.{IfOk, IfSome, ◌≡◌, true, ◌+◌, ◌*◌, ◌≤◌, ◌<◌, length, replicate};
ghost use Rattle.sha256.specs.Sha256.{sha256};

use lines::{Line, Span};
use std::fs::File;
use std::io;
use std::io::{Print, Read, Stdout};

// What is known of a file that is read up to `at`. Where `whole` is false the rest of it was given up.
#[derive(Drop)]
struct Tally {
    at: usize,
    vectors: usize,
    agreed: usize,
    whole: bool,
}

// What came of a vector; of one that differs, the bytes of its message.
#[derive(Drop)]
enum Verdict {
    Agrees,
    Differs(usize),
}

fn say(out: Stdout, text: &[u8]) -> io::Result<()> {
    out.write_all(text)
}

fn say_number(out: Stdout, n: usize) -> io::Result<()> {
    out.print(n)
}

// Starts a line on the file `name`.
fn say_name(out: Stdout, name: &[u8]) -> io::Result<()> {
    say(out, name)?;
    say(out, b": ")
}

// Whether the hash of `message` is `digest`.
fn agrees(message: &[u8], digest: &[u8]) -> bool
    ensures { result ≡ true → sha256 message.now ≡ digest.now }
{
    let got = sha256::hash(message);
    got.as_slice() == digest
}

// How many bytes a message has whose length line says `bits` and whose message line has `digits` digits. The message of no bits is
// written 00. None where the two lines don't fit each other, or the message is more than `room`.
fn size_of(bits: usize, digits: usize, room: usize) -> Option<usize>
    ensures { IfSome result (λ n. (2 * n ≤ digits) × (n ≤ room)) }
{
    if bits == 0 {
        return (digits == 2).then_some(0);
    }
    let n = bits / 8;
    if n * 8 == bits && digits / 2 == n && digits % 2 == 0 && n <= room {
        return Some(n);
    }
    None
}

// How many bytes the message has that two lines give. It is put at the start of `room`. None where it has no place among the vectors.
fn message_of(text: &[u8], bits: Span, digits: Span, room: &mut [u8]) -> Option<usize>
    requires from_le_to { (bits.from ≤ bits.to) × (bits.to ≤ length text.now) }
    requires from_le_to_2 { (digits.from ≤ digits.to) × (digits.to ≤ length text.now) }
    ensures { IfSome result (λ n. n ≤ length room.new) }
{
    let said = lines::value_of(&text[bits.from..bits.to])?;
    let n = size_of(said, digits.to - digits.from, room.len())?;
    if !hex::decode(&text[digits.from..digits.to], n, room) {
        return None;
    }
    Some(n)
}

// The digest that a line gives: 64 digits.
fn digest_of(text: &[u8], line: Span) -> Option<[u8; 32]>
    requires { (line.from ≤ line.to) × (line.to ≤ length text.now) }
{
    if line.to - line.from != 64 {
        return None;
    }
    let mut bytes = [0u8; 32];
    if !hex::decode(&text[line.from..line.to], 32, &mut bytes) {
        return None;
    }
    Some(bytes)
}

// Gives the rest of a text of `size` bytes up, where it isn't what a vector file holds.
fn give_up(out: Stdout, name: &[u8], t: Tally, size: usize) -> io::Result<Tally>
    ensures { IfOk result (λ r. (r.at ≡ size) × (r.vectors ≡ t.vectors) × (r.agreed ≡ t.agreed)) }
{
    say_name(out, name)?;
    say(out, b"MALFORMED from byte ")?;
    say_number(out, t.at)?;
    say(out, b" on, which is not read\n")?;
    Ok(Tally {
        at: size,
        vectors: t.vectors,
        agreed: t.agreed,
        whole: false,
    })
}

// Says that the vector at `at` disagrees.
fn accuse(out: Stdout, name: &[u8], at: usize, bytes: usize) -> io::Result<()> {
    say_name(out, name)?;
    say(out, b"the vector at byte ")?;
    say_number(out, at)?;
    say(out, b", a message of ")?;
    say_number(out, bytes)?;
    say(out, b" bytes, DISAGREES\n")
}

// What comes of the vector of three lines. Its message goes into `room`. None where they are no vector.
fn verdict_on(text: &[u8], bits: Line, digits: Line, line: Line, room: &mut [u8]) -> Option<Verdict>
    requires from_le_to { IfSome bits.value (λ v. (v.from ≤ v.to) × (v.to ≤ length text.now)) }
    requires from_le_to_2 { IfSome digits.value (λ v. (v.from ≤ v.to) × (v.to ≤ length text.now)) }
    requires from_le_to_3 { IfSome line.value (λ v. (v.from ≤ v.to) × (v.to ≤ length text.now)) }
{
    let want = digest_of(text, line.value?)?;
    let n = message_of(text, bits.value?, digits.value?, room)?;
    if agrees(&room[..n], &want) {
        return Some(Verdict::Agrees);
    }
    Some(Verdict::Differs(n))
}

// One more vector, after which the text goes on at `next`; `more` is 1 where it agreed and 0 where it didn't.
fn counted(t: Tally, next: usize, more: usize) -> Tally
    requires { (t.at < next) × (t.vectors ≤ t.at) × (t.agreed ≤ t.vectors) × (more ≤ 1) }
    ensures { (result.at ≡ next) × (result.vectors ≡ t.vectors + 1) × (result.agreed ≡ t.agreed + more) }
{
    Tally {
        at: next,
        vectors: t.vectors + 1,
        agreed: t.agreed + more,
        whole: t.whole,
    }
}

// The vector at `t.at`.
fn judge(out: Stdout, name: &[u8], text: &[u8], t: Tally, room: &mut [u8]) -> io::Result<Tally>
    requires { (t.at < length text.now) × (t.vectors ≤ t.at) × (t.agreed ≤ t.vectors) }
    ensures { IfOk result (λ r. (t.at < r.at) × (r.at ≤ length text.now) × (r.vectors ≤ r.at) × (r.agreed ≤ r.vectors)) }
{
    let at = t.at;
    let bits = lines::line_at(text, at, b"Len = ");
    let digits = lines::line_at(text, bits.next, b"Msg = ");
    let line = lines::line_at(text, digits.next, b"MD = ");
    match verdict_on(text, bits, digits, line, room) {
        Some(Verdict::Agrees) => Ok(counted(t, line.next, 1)),
        Some(Verdict::Differs(bytes)) => {
            accuse(out, name, at, bytes)?;
            Ok(counted(t, line.next, 0))
        }
        None => give_up(out, name, t, text.len()),
    }
}

// Whether a line that starts with `first` stands between the vectors: a comment, a heading in brackets or a blank line.
fn is_between(first: u8) -> bool {
    first == b'#' || first == b'[' || first == b'\r' || first == b'\n'
}

// The line or the vector at `t.at`.
fn turn(out: Stdout, name: &[u8], text: &[u8], t: Tally, room: &mut [u8]) -> io::Result<Tally>
    requires { (t.at < length text.now) × (t.vectors ≤ t.at) × (t.agreed ≤ t.vectors) }
    ensures { IfOk result (λ r. (t.at < r.at) × (r.at ≤ length text.now) × (r.vectors ≤ r.at) × (r.agreed ≤ r.vectors)) }
{
    let at = t.at;
    if is_between(text[at]) {
        return Ok(Tally {
            at: lines::next_line(text, at),
            vectors: t.vectors,
            agreed: t.agreed,
            whole: t.whole,
        });
    }
    judge(out, name, text, t, room)
}

// Every vector of a text.
fn judge_all(out: Stdout, name: &[u8], text: &[u8], room: &mut [u8]) -> io::Result<Tally> {
    let mut t = Tally {
        at: 0,
        vectors: 0,
        agreed: 0,
        whole: true,
    };
    while t.at < text.len() {
        t = turn(out, name, text, t, room)?;
    }
    Ok(t)
}

// The line on a file, which says so where that file was no proper one.
fn report(out: Stdout, name: &[u8], t: Tally) -> io::Result<()> {
    say_name(out, name)?;
    if !t.whole {
        say(out, b"NOT READ WHOLE, ")?;
    }
    if t.vectors == 0 {
        return say(out, b"NO VECTORS\n");
    }
    say_number(out, t.vectors)?;
    say(out, b" vectors, ")?;
    say_number(out, t.agreed)?;
    say(out, b" agree\n")
}

// Fills a buffer from a file, as far as the file goes, and answers how many bytes it put there. A read that fails ends it too.
fn read_full(file: &mut File, room: &mut [u8]) -> usize
    ensures { result ≤ length room.new }
{
    let mut done: usize = 0;
    while done < room.len() {
        match file.read(&mut room[done..]) {
            Ok(0) => return done,
            Ok(n) => done += n,
            Err(_) => return done,
        }
    }
    done
}

// Whether nothing is left to read. A read that fails answers false, and so does a file that was too long.
fn is_at_end(file: &mut File) -> bool {
    let mut one = [0u8; 1];
    match file.read(&mut one) {
        Ok(n) => n == 0,
        Err(_) => false,
    }
}

fn complain(out: Stdout, name: &[u8]) -> io::Result<()> {
    say_name(out, name)?;
    say(out, b"CANNOT BE READ\n")
}

// Room for a file. It is a function of its own, as `million` is, since the prover takes long to count out an array that it sees made.
fn text_room() -> [u8; 524288] {
    [0; 524288]
}

fn judge_file(rt: HostRuntime, name: &str) -> io::Result<()> {
    let out = rt.stdout();
    let Ok(mut file) = File::open(&rt, name) else {
        return complain(out, name.as_bytes());
    };
    let mut text = text_room();
    let n = read_full(&mut file, &mut text);
    if !is_at_end(&mut file) {
        return complain(out, name.as_bytes());
    }
    let mut room = [0u8; 8192];
    report(
        out,
        name.as_bytes(),
        judge_all(out, name.as_bytes(), &text[..n], &mut room)?,
    )
}

// A million 'a'.
fn million() -> [u8; 1000000]
    ensures { result ≡ replicate 1000000 97 }
{
    [b'a'; 1000000]
}

fn judge_million(out: Stdout) -> io::Result<()> {
    let message = million();
    let mut digest = [0u8; 32];
    let digits = b"cdc76e5c9914fb9281a1c7e284d73e67f1809a48a497200e046d39ccc7112cd0";
    say(out, b"a million 'a': ")?;
    if hex::decode(digits, 32, &mut digest) {
        if agrees(&message, &digest) {
            return say(out, b"1 vector, 1 agrees\n");
        }
    }
    say(out, b"DISAGREES\n")
}

fn main(rt: HostRuntime) -> io::Result<()> {
    judge_file(rt, "SHA256ShortMsg.rsp")?;
    judge_file(rt, "SHA256LongMsg.rsp")?;
    judge_million(rt.stdout())
}
