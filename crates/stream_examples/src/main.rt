#![tactic(auto)]
// Runs the prefixes of RULES, Examples, and others, in one piece and cut, and writes what each call answers.
use refusal::Refusal;
use std::io;
use std::io::{Print, Stdout};
use stream::{Framing, Held};

fn say(out: Stdout, text: &[u8]) -> io::Result<()> {
    out.write_all(text)
}

fn count(out: Stdout, n: usize) -> io::Result<()> {
    out.print(n)
}

fn refused(out: Stdout, r: refusal::Refusal) -> io::Result<()> {
    say(out, b"refused ")?;
    count(out, refusal::number(r) as usize)
}

fn tell_answer(out: Stdout, a: Result<Option<usize>, Refusal>) -> io::Result<()> {
    match a {
        Ok(Some(n)) => {
            say(out, b"message of ")?;
            count(out, n)
        }
        Err(r) => refused(out, r),
        Ok(None) => say(out, b"more"),
    }
}

fn tell_framing(out: Stdout, f: Framing) -> io::Result<()> {
    match f {
        Framing::Shut => say(out, b"; shut\n"),
        Framing::Prefix(held) => match held {
            Held::Nothing => say(out, b"; no prefix byte held\n"),
            Held::One(_) => say(out, b"; 1 prefix byte held\n"),
            Held::Two(_, _) => say(out, b"; 2 prefix bytes held\n"),
        },
        Framing::Body { want, have } => {
            say(out, b"; ")?;
            count(out, have)?;
            say(out, b" of ")?;
            count(out, want)?;
            say(out, b"\n")
        }
    }
}

// One call of `receive`, written out; the framing that it hands back.
fn call(out: Stdout, framing: Framing, buffer: &mut [u8], piece: &[u8]) -> io::Result<Framing> {
    let r = stream::receive(framing, buffer, piece);
    say(out, b"  took ")?;
    count(out, r.taken)?;
    say(out, b": ")?;
    let a = r.answer;
    tell_answer(out, a)?;
    let f = r.framing;
    tell_framing(out, f)?;
    Ok(f)
}

fn end(out: Stdout, framing: Framing) -> io::Result<()> {
    let e = stream::end(framing);
    let a = e.answer;
    match a {
        Ok(()) => say(out, b"  end: clean")?,
        Err(r) => {
            say(out, b"  end: ")?;
            refused(out, r)?;
        }
    }
    let f = e.framing;
    tell_framing(out, f)
}

// A fresh connection is given one piece, and then ends.
fn whole(out: Stdout, name: &[u8], buffer: &mut [u8], piece: &[u8]) -> io::Result<()> {
    say(out, name)?;
    let f = call(out, stream::open(), buffer, piece)?;
    end(out, f)
}

// A fresh connection is given two pieces, and then ends.
fn halves(out: Stdout, name: &[u8], buffer: &mut [u8], a: &[u8], b: &[u8]) -> io::Result<()> {
    say(out, name)?;
    let f = call(out, stream::open(), buffer, a)?;
    let g = call(out, f, buffer, b)?;
    end(out, g)
}

// The starred ones of RULES, Examples.
fn starred(out: Stdout, buffer: &mut [u8]) -> io::Result<()> {
    whole(out, b"00\n", buffer, &[0])?;
    whole(out, b"80 00\n", buffer, &[128, 0])?;
    whole(out, b"80 80 01\n", buffer, &[128, 128, 1])?;
    whole(out, b"81 80 01\n", buffer, &[129, 128, 1])?;
    whole(out, b"80 80 80\n", buffer, &[128, 128, 128])
}

fn prefixes(out: Stdout, buffer: &mut [u8]) -> io::Result<()> {
    whole(out, b"FF 7F\n", buffer, &[255, 127])?;
    whole(out, b"80 80 00\n", buffer, &[128, 128, 0])?;
    whole(out, b"FF FF 00\n", buffer, &[255, 255, 0])?;
    whole(out, b"81 00\n", buffer, &[129, 0])?;
    whole(out, b"FF FF 7F\n", buffer, &[255, 255, 127])
}

fn cut(out: Stdout, buffer: &mut [u8]) -> io::Result<()> {
    halves(out, b"FF | 7F\n", buffer, &[255], &[127])?;
    halves(out, b"80 | 00 05\n", buffer, &[128], &[0, 5])?;
    halves(out, b"80 80 | 80\n", buffer, &[128, 128], &[128])?;
    halves(out, b"02 08 | 05 06 08\n", buffer, &[2, 8], &[5, 6, 8])?;
    halves(out, b"nothing | 01 07\n", buffer, &[0; 0], &[1, 7])
}

// Two messages that come together: after the first the rest is handed over.
fn together(out: Stdout, buffer: &mut [u8]) -> io::Result<()> {
    say(out, b"02 08 05 06 08 04 12 02 41 42\n")?;
    let f = call(
        out,
        stream::open(),
        buffer,
        &[2, 8, 5, 6, 8, 4, 18, 2, 65, 66],
    )?;
    let g = call(out, f, buffer, &[6, 8, 4, 18, 2, 65, 66])?;
    end(out, g)
}

// The largest message, in two pieces, and what one byte past it gives.
fn largest(out: Stdout, buffer: &mut [u8]) -> io::Result<()> {
    let body = [7u8; 16384];
    say(out, b"80 80 01 and 16,384 bytes\n")?;
    let f = call(out, stream::open(), buffer, &[128, 128, 1])?;
    let g = call(out, f, buffer, &body[..16383])?;
    let h = call(out, g, buffer, &body[..1])?;
    end(out, h)
}

// The refusals that take nothing, for an empty piece too.
fn out_of_form(out: Stdout, buffer: &mut [u8]) -> io::Result<()> {
    say(out, b"out of form\n")?;
    let a = call(out, Framing::Body { want: 5, have: 5 }, buffer, &[0; 0])?;
    end(out, a)?;
    let low = Held::One(127);
    end(out, call(out, Framing::Prefix(low), buffer, &[1])?)?;
    end(
        out,
        call(
            out,
            Framing::Body {
                want: 16385,
                have: 0,
            },
            buffer,
            &[1],
        )?,
    )
}

fn kept_out(out: Stdout, buffer: &mut [u8]) -> io::Result<()> {
    say(out, b"a short buffer, shut\n")?;
    let mut short = [0u8; 16383];
    end(out, call(out, stream::open(), &mut short, &[0; 0])?)?;
    end(out, call(out, stream::shut(), buffer, &[0; 0])?)?;
    end(out, call(out, stream::shut(), &mut short, &[1])?)
}

fn main(rt: HostRuntime) -> io::Result<()> {
    let out = rt.stdout();
    let mut buffer = [0u8; 16384];
    starred(out, &mut buffer)?;
    prefixes(out, &mut buffer)?;
    cut(out, &mut buffer)?;
    together(out, &mut buffer)?;
    largest(out, &mut buffer)?;
    out_of_form(out, &mut buffer)?;
    kept_out(out, &mut buffer)
}
