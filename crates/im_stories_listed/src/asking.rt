//! What is asked of an image, and what is told.
ghost use Rattle.std.specs.Prelude.{◌≡◌, []};

use arrayvec::ArrayVec;
use im_front::{AskedCommand, ToldAnswer};
use im_listed::Image;
use im_story::{Phrase, Saying, asked, command, op};
use im_types::{Command, MAX_GROUP, Op, Refusal, Served};

// As many requests as no window and no journal here has.
const MANY: u32 = 300;

// Tells what is asked, each with its ticket, and whether it is ahead.
fn tell_asked(asked: &[AskedCommand], ahead: usize, said: &mut Saying) {
    for (at, it) in asked.iter().enumerate() {
        said.either(at == 0, "", ", ");
        write!(said, "{} ", it.ticket);
        said.command(Some(it.command));
        said.either(at < ahead, " ahead", "");
    }
}

// Tells answers, each with its ticket.
fn tell_answers(told: &[ToldAnswer], said: &mut Saying) {
    for (at, it) in told.iter().enumerate() {
        said.either(at == 0, "", ", ");
        write!(said, "{} ", it.asked.ticket);
        match it.served {
            Served::Done(outcome) => said.outcome(Ok(outcome)),
            Served::Refused(refusal) => said.refusal(refusal),
            Served::Unserved => said.fail("a command has no answer"),
        }
    }
}

// Asks for a command, whose ticket is the first number.
fn submit(image: &mut Image, call: &Phrase, said: &mut Saying) {
    if image.behind() >= MAX_GROUP {
        return said.fail("there is no room");
    }
    match command(call.rest(2)) {
        Some(command) => {
            image.submit(call.number(0), &command);
            said.text("asked")
        }
        None => said.fail("that is no command"),
    }
}

// Asks for a request under the next number. The call's numbers are its ticket, its element, and from where on entries
// are kept.
fn submit_next(image: &mut Image, call: &Phrase, said: &mut Saying) {
    if image.behind() >= MAX_GROUP {
        return said.fail("there is no room");
    }
    match op(call.rest(4)) {
        Some(op) => {
            let number = image.submit_next(call.number(0), call.element(1), op, call.number(2));
            said.result(number, |number, said| said.number(number))
        }
        None => said.fail("that is no operation"),
    }
}

// Goes on with the chain, or answers the first that is asked where nothing is ahead and there is no room.
fn go_on(image: &mut Image, told: &mut ArrayVec<ToldAnswer, MAX_GROUP>) -> Result<usize, Refusal>
    requires empty { told.old.items ≡ [] }
{
    if image.is_lost() {
        return Err(Refusal::Device);
    }
    if image.has_no_room() {
        image.answer_first(told);
        return Ok(0);
    }
    image.advance(told)
}

// Tells how many are ahead then, and the answers of those that were.
fn advance(image: &mut Image, said: &mut Saying) {
    let mut told = ArrayVec::new();
    let ahead = go_on(image, &mut told);
    said.result(ahead, |many, said| write!(said, "{many} ahead"));
    said.text(" [");
    tell_answers(told.as_slice(), said);
    said.text("]")
}

// Serves fetches of cell 0 by an element, under its next numbers, until one is refused. Tells its window.
fn fill(image: &mut Image, element: u16, said: &mut Saying) {
    for _ in 0..MANY {
        let (_, next) = image.window(element).unwrap_or((0, 0));
        let fetch = asked(element, next, Op::Fetch(0));
        if image.serve(&Command::Request(fetch)).is_err() {
            break;
        }
    }
    said.window(image.window(element))
}

/// Makes a call of what is asked of an image. Returns whether it is one.
pub fn ask(image: &mut Image, call: &Phrase, said: &mut Saying) -> bool {
    match call.word(0) {
        "submit" => submit(image, call, said),
        "next" => submit_next(image, call, said),
        "advance" => advance(image, said),
        "asked" => tell_asked(image.asked(), image.ahead(), said),
        "fill" => fill(image, call.element(0), said),
        _ => return false,
    }
    true
}
