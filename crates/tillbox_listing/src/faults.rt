// What is wrong with a line that was refused, told from the line, from what was read before it and from the classes read so far. The
// refusal itself is the reader's.
use listing::{Letter, Progress, Record};

// What is wrong with a line.
#[derive(Clone, Copy)]
pub enum Fault {
    Form(FormFault),
    Order(OrderFault),
    Need(NeedFault),
}

// What breaks the form.
#[derive(Clone, Copy)]
pub enum FormFault {
    Empty,
    NoLineFeed,
    TooLong,
    CarriageReturn,
    Space,
    SmallLetter,
    NoLetter,
    NoneOnTheRight,
    // The form of the record of this letter.
    Form(u8),
}

// What breaks the order.
#[derive(Clone, Copy)]
pub enum OrderFault {
    NoPage,
    NoDefaults,
    PageAgain,
    DefaultsAgain,
    LetterOrder,
    KeyAgain,
    KeyOrder,
}

// What a record needs and has not.
#[derive(Clone, Copy)]
pub enum NeedFault {
    LowLead,
    SingleAsLead,
    NoLead,
    NoTrail,
}

// What is wrong with the form of a line that has its letter and capitals alone.
fn record_fault(letter: u8, line: &[u8]) -> FormFault {
    if !b"PDSLTMW".contains(&letter) {
        return FormFault::NoLetter;
    }
    if b"SMW".contains(&letter) && line.ends_with(b"\tFFFF\n") {
        return FormFault::NoneOnTheRight;
    }
    FormFault::Form(letter)
}

// What is wrong with a line of which no line feed was kept: the longest record has 12 bytes.
fn open_fault(line: &[u8]) -> FormFault {
    if 12 <= line.len() {
        FormFault::TooLong
    } else {
        FormFault::NoLineFeed
    }
}

// What is wrong with the form of a line.
fn form_fault(line: &[u8]) -> FormFault {
    let Some(first) = line.first().copied() else {
        return FormFault::Empty;
    };
    if first == b'\n' {
        return FormFault::Empty;
    }
    if line.contains(&b'\r') {
        return FormFault::CarriageReturn;
    }
    if line.contains(&b' ') {
        return FormFault::Space;
    }
    if line.iter().any(|byte| byte.is_ascii_lowercase()) {
        return FormFault::SmallLetter;
    }
    if !line.contains(&b'\n') {
        return open_fault(line);
    }
    record_fault(first, line)
}

// Whether a class, where there is one, is that of a lead byte.
fn is_lead(classes: &[u8], byte: usize) -> bool {
    classes
        .get(byte)
        .is_some_and(|class| codepage::is_lead_class(*class))
}

// What is wrong with a record whose letter and key may come next.
fn need_fault(item: Record, classes: &[u8]) -> Fault {
    match item {
        Record::Lead(byte) if byte < 0x80 => Fault::Need(NeedFault::LowLead),
        Record::Lead(_) => Fault::Need(NeedFault::SingleAsLead),
        Record::Pair(code, _) if is_lead(classes, (code / 256) as usize) => {
            Fault::Need(NeedFault::NoTrail)
        }
        Record::Pair(_, _) => Fault::Need(NeedFault::NoLead),
        _ => Fault::Order(OrderFault::LetterOrder),
    }
}

// What is wrong with a record of a letter behind `D`, with this key.
fn order_fault(
    progress: Progress,
    letter: Letter,
    key: u16,
    item: Record,
    classes: &[u8],
) -> Fault {
    match progress.letter {
        Letter::Start => return Fault::Order(OrderFault::NoPage),
        Letter::P => return Fault::Order(OrderFault::NoDefaults),
        _ => {}
    }
    // The letters are declared in their order.
    let before = progress.letter as u8;
    let place = letter as u8;
    if place < before {
        return Fault::Order(OrderFault::LetterOrder);
    }
    if place == before && key == progress.key {
        return Fault::Order(OrderFault::KeyAgain);
    }
    if place == before && key < progress.key {
        return Fault::Order(OrderFault::KeyOrder);
    }
    need_fault(item, classes)
}

// What is wrong with a line that was refused behind what has been read.
pub fn fault_of(progress: Progress, line: &[u8], classes: &[u8]) -> Fault {
    let item = listing::form::record_of(line);
    match item {
        Record::NoRecord => Fault::Form(form_fault(line)),
        Record::Page(_) => Fault::Order(OrderFault::PageAgain),
        Record::Defaults(_, _) => {
            if let Letter::Start = progress.letter {
                return Fault::Order(OrderFault::NoPage);
            }
            Fault::Order(OrderFault::DefaultsAgain)
        }
        Record::Single(byte, _) => order_fault(progress, Letter::S, byte as u16, item, classes),
        Record::Lead(byte) => order_fault(progress, Letter::L, byte as u16, item, classes),
        Record::Trail(byte) => order_fault(progress, Letter::T, byte as u16, item, classes),
        Record::Pair(code, _) => order_fault(progress, Letter::M, code, item, classes),
        Record::Code(unit, _) => order_fault(progress, Letter::W, unit, item, classes),
    }
}
