// Texts, raw values, bytes, words, numbers, codes and errors.

use crate::compare::same;
use ak_base::{
    AppWord, Bytes, Code, Items, KitError, NoMemory, Raw, RawFault, Text, TextFault, ThreadId,
    is_word, is_word_byte, print_int, print_uint, read_int,
};
use std::alloc::Global;
use std::process::Abort;
use std::test::Fail;

// ---- texts and raw values
// A text of these bytes has them, and a copy too.
fn text_is_kept(rt: &impl Abort, alloc: Global, bytes: &[u8]) -> Result<(), Fail> {
    let text = Text::from_bytes(alloc, bytes)?;
    let copy = text.try_clone()?;
    let told = (text.as_bytes(), copy.as_bytes(), copy.as_str().as_bytes());
    same(rt, ("text", bytes.len()), told, (bytes, bytes, bytes));
    Ok(())
}

// The same of a raw value.
fn raw_is_kept(rt: &impl Abort, alloc: Global, bytes: &[u8]) -> Result<(), Fail> {
    let raw = Raw::from_bytes(alloc, bytes)?;
    let copy = raw.try_clone()?;
    let told = (raw.as_bytes(), copy.as_bytes());
    same(rt, ("raw", bytes.len()), told, (bytes, bytes));
    Ok(())
}

fn text_fault(alloc: Global, bytes: &[u8]) -> Option<TextFault> {
    Text::from_bytes(alloc, bytes).err()
}

fn raw_fault(alloc: Global, bytes: &[u8]) -> Option<RawFault> {
    Raw::from_bytes(alloc, bytes).err()
}

#[test]
fn texts_and_raw_values_have_at_most_1024_bytes(rt: HostRuntime) -> Result<(), Fail> {
    let alloc = rt.alloc();
    text_is_kept(&rt, alloc, &[b'x'; 1024])?;
    text_is_kept(&rt, alloc, b"p\xc3\xa9")?;
    raw_is_kept(&rt, alloc, &[0xff; 1024])?;
    let told = (
        text_fault(alloc, &[b'x'; 1025]),
        text_fault(alloc, &[0xff; 1025]),
        text_fault(alloc, &[0xff, 0]),
        text_fault(alloc, &[0x41, 0]),
        raw_fault(alloc, &[0xff; 1025]),
    );
    let wanted = (
        Some(TextFault::TooLong),
        Some(TextFault::TooLong),
        Some(TextFault::NotUtf8),
        Some(TextFault::Zero),
        Some(RawFault::TooLong),
    );
    same(&rt, "long, long and bad, bad, zero, raw", told, wanted);
    Ok(())
}

// ---- bytes and items
// The numbers 3, 1 and 2 are held, and given back.
fn items_are_held(rt: &impl Abort, alloc: Global) -> Result<(), Fail> {
    let items = Items::from_vec(vec![in alloc; 3u8, 1, 2]?);
    same(rt, "items", items.as_slice(), [3, 1, 2].as_slice());
    let vec = items.into_vec();
    same(rt, "vec", vec.as_slice(), [3, 1, 2].as_slice());
    Ok(())
}

// Bytes that have none yet grow to `abc`, are overwritten and cleared.
fn bytes_are_changed(rt: &impl Abort, label: &str, mut out: Bytes) -> Result<(), NoMemory> {
    out.push(b'a')?;
    out.extend(b"bc")?;
    out.extend(b"")?;
    same(rt, label, out.as_slice(), b"abc".as_slice());
    if out.len() == 3 {
        out.overwrite(1, b"xy");
    }
    same(
        rt,
        label,
        (out.as_slice(), out.len()),
        (b"axy".as_slice(), 3),
    );
    out.clear();
    same(rt, label, out.as_slice(), b"".as_slice());
    Ok(())
}

#[test]
fn items_and_bytes_are_held_and_changed(rt: HostRuntime) -> Result<(), Fail> {
    let alloc = rt.alloc();
    items_are_held(&rt, alloc)?;
    bytes_are_changed(&rt, "new", Bytes::new(alloc))?;
    // they grow past their capacity
    bytes_are_changed(&rt, "room for 2", Bytes::with_capacity(alloc, 2)?)?;
    Ok(())
}

// ---- errors
static ERRORS: [(KitError, i32, &str); 20] = [
    (KitError::Ok, 0, "B_OK"),
    (KitError::NoMemory, -1, "B_NO_MEMORY"),
    (KitError::BadType, -2, "B_BAD_TYPE"),
    (KitError::NameNotFound, -3, "B_NAME_NOT_FOUND"),
    (KitError::BadIndex, -4, "B_BAD_INDEX"),
    (KitError::BadPortId, -5, "B_BAD_PORT_ID"),
    (KitError::WouldBlock, -6, "B_WOULD_BLOCK"),
    (KitError::BadValue, -7, "B_BAD_VALUE"),
    (KitError::BadHandler, -8, "B_BAD_HANDLER"),
    (KitError::NameInUse, -9, "B_NAME_IN_USE"),
    (KitError::DuplicateReply, -10, "B_DUPLICATE_REPLY"),
    (KitError::BadScriptSyntax, -11, "B_BAD_SCRIPT_SYNTAX"),
    (KitError::AlreadyRunning, -12, "B_ALREADY_RUNNING"),
    (
        KitError::LaunchFailedAppNotFound,
        -13,
        "B_LAUNCH_FAILED_APP_NOT_FOUND",
    ),
    (KitError::Spent, -14, "K_SPENT"),
    (KitError::TooLong, -15, "K_TOO_LONG"),
    (KitError::Limit, -16, "K_LIMIT"),
    (KitError::ChainLoop, -17, "K_CHAIN_LOOP"),
    (KitError::IsLooper, -18, "K_IS_LOOPER"),
    (KitError::NoTeam, -19, "K_NO_TEAM"),
];

#[test]
fn errors_have_numbers_and_names(rt: HostRuntime) {
    for (error, number, name) in &ERRORS {
        same(&rt, *name, (error.number(), error.name()), (*number, *name));
    }
}

// ---- threads
#[test]
fn threads_are_numbered(rt: HostRuntime) {
    let loopers = (ThreadId::looper(0), ThreadId::looper(9_999).0);
    same(&rt, "loopers", loopers, (ThreadId::FIRST_LOOPER, 19_999));
    let named = (ThreadId::MAIN.0, ThreadId::KEEPER.0);
    same(&rt, "named", named, (0, 20_000));
}

// ---- codes and numbers
// What is printed.
#[derive(Clone, Copy)]
enum Printed {
    Code(Code),
    Int(i64),
    Uint(u64),
}

static PRINTED: [(Printed, &[u8]); 25] = [
    (Printed::Code(Code(0x5047_4554)), b"'PGET'"),
    (Printed::Code(Code(0)), b"0x00000000"),
    (Printed::Code(Code(0x2741_4141)), b"0x27414141"),
    (Printed::Code(Code(0x4141_415C)), b"0x4141415c"),
    (Printed::Code(Code(0x207E_5F21)), b"' ~_!'"),
    (Printed::Code(Code::GET), b"'PGET'"),
    (Printed::Code(Code::SET), b"'PSET'"),
    (Printed::Code(Code::COUNT), b"'PCNT'"),
    (Printed::Code(Code::CREATE), b"'PCRT'"),
    (Printed::Code(Code::DELETE), b"'PDEL'"),
    (Printed::Code(Code::EXECUTE), b"'PEXE'"),
    (Printed::Code(Code::SUITES), b"'SUIT'"),
    (Printed::Code(Code::REPLY), b"'RPLY'"),
    (Printed::Code(Code::NO_REPLY), b"'NONE'"),
    (Printed::Code(Code::NOT_UNDERSTOOD), b"'MNOT'"),
    (Printed::Code(Code::QUIT_REQUESTED), b"'_QRQ'"),
    (Printed::Code(Code::ARGV_RECEIVED), b"'_ARG'"),
    (Printed::Code(Code::READY_TO_RUN), b"'_RTR'"),
    (Printed::Int(0), b"0"),
    (Printed::Int(-1), b"-1"),
    (Printed::Int(3), b"3"),
    (Printed::Int(2_147_483_647), b"2147483647"),
    (Printed::Int(-2_147_483_648), b"-2147483648"),
    (Printed::Int(i64::MIN), b"-9223372036854775808"),
    (Printed::Uint(u64::MAX), b"18446744073709551615"),
];

// Whether that text is printed.
fn is_printed(alloc: Global, printed: Printed, text: &[u8]) -> Result<bool, NoMemory> {
    let mut out = Bytes::new(alloc);
    match printed {
        Printed::Code(code) => code.print(&mut out)?,
        Printed::Int(n) => print_int(n, &mut out)?,
        Printed::Uint(n) => print_uint(n, &mut out)?,
    }
    Ok(out.as_slice() == text)
}

// What a text is read as: a code or a number, or neither.
type Meaning = (Option<Code>, Option<i128>);

fn read(text: &[u8]) -> Meaning {
    (Code::read(text), read_int(text))
}

fn meaning_of(printed: Printed) -> Meaning {
    match printed {
        Printed::Code(code) => (Some(code), None),
        Printed::Int(n) => (None, Some(i128::from(n))),
        Printed::Uint(n) => (None, Some(i128::from(n))),
    }
}

// Texts that are not printed, and what they are read as.
static NOT_PRINTED: [(&[u8], Meaning); 21] = [
    (b"0x50474554", (Some(Code(0x5047_4554)), None)),
    (b"0X50474554", (None, None)),
    (b"0x5047455", (None, None)),
    (b"'PGE'", (None, None)),
    (b"PGET", (None, None)),
    (b"0x5047455G", (None, None)),
    (b"0xABCDEF00", (None, None)),
    (b"'PG'T'", (None, None)),
    (b"'PG\\T'", (None, None)),
    (b"'PGETS'", (None, None)),
    (b"", (None, None)),
    (
        b"99999999999999999999",
        (None, Some(99_999_999_999_999_999_999)),
    ),
    (b"100000000000000000000", (None, None)),
    (b"+3", (None, None)),
    (b"03", (None, None)),
    (b"00", (None, None)),
    (b"-0", (None, None)),
    (b"-03", (None, None)),
    (b"-", (None, None)),
    (b"--1", (None, None)),
    (b"1a", (None, None)),
];

#[test]
fn codes_and_numbers_are_printed_and_read(rt: HostRuntime) {
    for (printed, text) in &PRINTED {
        let told = (is_printed(rt.alloc(), *printed, text), read(text));
        same(&rt, *text, told, (Ok(true), meaning_of(*printed)));
    }
    for (text, meaning) in &NOT_PRINTED {
        same(&rt, *text, read(text), *meaning);
    }
}

// ---- words
static WORDS: [(&[u8], bool); 9] = [
    (b"a", true),
    (b"a/b-c_d.e:f", true),
    (b"Az09", true),
    (&[b'a'; 64], true),
    (&[b'a'; 65], false),
    (b"", false),
    (b"a b", false),
    (b"a\"b", false),
    (&[0xc3, 0xa9], false),
];

// The letter of its form, its text, and its team.
fn told(word: &AppWord) -> (u8, &[u8], u32) {
    match word {
        AppWord::Path(text) => (b'p', text.as_bytes(), 0),
        AppWord::Signature(text) => (b's', text.as_bytes(), 0),
        AppWord::Name(text) => (b'n', text.as_bytes(), 0),
        AppWord::Team(team) => (b't', b"", *team),
    }
}

// A word of that form.
fn word(alloc: Global, form: u8, text: &[u8], team: u32) -> Result<AppWord, TextFault> {
    match form {
        b'p' => Ok(AppWord::Path(Text::from_bytes(alloc, text)?)),
        b's' => Ok(AppWord::Signature(Text::from_bytes(alloc, text)?)),
        b'n' => Ok(AppWord::Name(Text::from_bytes(alloc, text)?)),
        _ => Ok(AppWord::Team(team)),
    }
}

static APP_WORDS: [(u8, &[u8], u32); 4] = [
    (b'p', b"/boot/demo", 0),
    (b's', b"application/x-vnd.demo", 0),
    (b'n', b"demo", 0),
    (b't', b"", 7),
];

// A copy of a word is told as the word is.
fn is_copied(rt: &impl Abort, alloc: Global, row: (u8, &[u8], u32)) -> Result<(), Fail> {
    let copy = word(alloc, row.0, row.1, row.2)?.try_clone()?;
    same(rt, "a copy", told(&copy), row);
    Ok(())
}

#[test]
fn words_are_told_and_copied(rt: HostRuntime) -> Result<(), Fail> {
    for (bytes, wanted) in &WORDS {
        same(&rt, *bytes, is_word(bytes), *wanted);
    }
    let told = (is_word_byte(b'/'), is_word_byte(b'@'));
    same(&rt, "/, @", told, (true, false));
    for row in &APP_WORDS {
        is_copied(&rt, rt.alloc(), *row)?;
    }
    Ok(())
}
