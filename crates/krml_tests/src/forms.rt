//! Texts and their forms.

use krml_forms::{Form, Reading, form_count, read_forms, write_forms};
use krml_trace::NoMemory;
use std::alloc::Global;
use std::test::Fail;

/// What a text should be read as.
#[derive(Clone, Copy, Debug)]
enum Want {
    /// So many forms on the top, and so many in all.
    Forms(usize, u64),
    Syntax(u64),
    Nesting(u64),
}

/// The pieces in a row, each as often as it says.
fn text_of(alloc: Global, pieces: &[(&[u8], usize)]) -> Result<Vec<u8>, NoMemory> {
    let mut text = Vec::new(alloc);
    for (piece, times) in pieces {
        for _ in 0..*times {
            text.extend_from_slice(piece)?;
        }
    }
    Ok(text)
}

/// How many forms these have together.
fn count_of(forms: &[Form]) -> Result<u64, NoMemory> {
    let mut count = 0u64;
    for form in forms {
        count = count.saturating_add(form_count(form)?);
    }
    Ok(count)
}

fn is_wanted(reading: &Reading, want: Want) -> bool {
    match (reading, want) {
        (Reading::Forms(forms), Want::Forms(top, all)) => {
            forms.len() == top && matches!(count_of(forms.as_slice()), Ok(count) if count == all)
        }
        (Reading::Syntax { at }, Want::Syntax(place)) => *at == place,
        (Reading::Nesting { at }, Want::Nesting(place)) => *at == place,
        _ => false,
    }
}

#[test]
fn reads_texts(rt: HostRuntime) -> Result<(), Fail> {
    let cases: [(&[(&[u8], usize)], Want); 32] = [
        (&[], Want::Forms(0, 0)),
        (&[(b" \t\r\n", 1)], Want::Forms(0, 0)),
        (&[(b"; only a comment", 1)], Want::Forms(0, 0)),
        (&[(b";\n", 1)], Want::Forms(0, 0)),
        (&[(b"a", 1)], Want::Forms(1, 1)),
        (&[(b"'a'_0Zz", 1)], Want::Forms(1, 1)),
        (&[(b"a b", 1)], Want::Forms(2, 2)),
        (&[(b"a;b c\nd", 1)], Want::Forms(2, 2)),
        (&[(b"()", 1)], Want::Forms(1, 1)),
        (&[(b"(a(b)c) ; end", 1)], Want::Forms(1, 5)),
        (&[(b"(; ) \x00\xff\"\n)", 1)], Want::Forms(1, 1)),
        (&[(b"(;\r)\n)", 1)], Want::Forms(1, 1)),
        (&[(b"a \x00", 1)], Want::Syntax(2)),
        (&[(b"a-b", 1)], Want::Syntax(1)),
        (&[(b"\x80", 1)], Want::Syntax(0)),
        (&[(b")", 1)], Want::Syntax(0)),
        (&[(b"(a)) \"", 1)], Want::Syntax(3)),
        (&[(b"(a\" ))", 1)], Want::Syntax(2)),
        (&[(b"(a", 1)], Want::Syntax(2)),
        (&[(b"(a ; )", 1)], Want::Syntax(6)),
        (&[(b"(a ; )\n)", 1)], Want::Forms(1, 2)),
        // levels
        (&[(b"(", 64), (b")", 64)], Want::Forms(1, 64)),
        (&[(b"(", 65), (b")", 65)], Want::Nesting(64)),
        (&[(b"()(", 1), (b"(", 64), (b")", 65)], Want::Nesting(66)),
        (&[(b"(", 65), (b")", 66)], Want::Syntax(130)),
        (&[(b"(", 65), (b"?", 1), (b")", 65)], Want::Syntax(65)),
        (&[(b"(", 65), (b";", 1), (b")", 65)], Want::Syntax(131)),
        // large texts
        (&[(b"(", 524_288)], Want::Syntax(524_288)),
        (&[(b"(", 524_288), (b")", 524_288)], Want::Nesting(64)),
        (&[(b"a", 1_048_576)], Want::Forms(1, 1)),
        (&[(b";", 1_048_576)], Want::Forms(0, 0)),
        (&[(b"()", 524_288)], Want::Forms(524_288, 524_288)),
    ];
    for (pieces, want) in cases {
        let text = text_of(rt.alloc(), pieces)?;
        let reading = read_forms(rt.alloc(), text.as_slice())?;
        assert!(rt; is_wanted(&reading, want), "{want:?}");
    }
    Ok(())
}

#[test]
fn writes_what_it_read(rt: HostRuntime) -> Result<(), Fail> {
    let cases: [(&[u8], &[u8]); 5] = [
        (b"", b""),
        (b"a'  b;\n()", b"a'\nb\n()\n"),
        (b"(  a\t(b c)\n( ) )", b"(a (b c) ())\n"),
        (b"(((d)))(e f)", b"(((d)))\n(e f)\n"),
        (b"((a)b)c", b"((a) b)\nc\n"),
    ];
    for (text, want) in cases {
        let Reading::Forms(forms) = read_forms(rt.alloc(), text)? else {
            panic!(rt; "no forms");
        };
        let written = write_forms(rt.alloc(), forms.as_slice())?;
        assert_eq!(rt; written.as_slice(), want);
    }
    Ok(())
}
