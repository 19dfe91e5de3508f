// What one line does: it is read, its call is made, and what it says comes back.
ghost use Rattle.std.specs.Prelude.{◌≡◌, Some};
ghost use Rattle.lend.specs.Tables.{alone};
ghost use Rattle.lend.specs.Refusals.{answer_of};
ghost use Rattle.script.specs.declared.Said.TheVariants.{Emptied};
ghost use Rattle.script.specs.Script.{judged, spoken, turn};
ghost use Rattle.calls.specs.Answer.{emptied_of};
ghost use Rattle.board.specs.Model.{sizes};
ghost use Rattle.board.specs.Board.{tables};
ghost use Rattle.session.specs.Turned.{turned, found};

use access::translate::{Translation, translate};
use board::Board;
use calls::create::create;
use calls::delete::delete;
use calls::flush::flush;
use calls::grant::grant;
use calls::map::map;
use calls::unmap::unmap;
use lend::Refusal;
use script::Said;
use text::Request;
use text::line::{is_comment, parse};

// A call tells its number and what it emptied.
fn answered(answer: Result<u32, Refusal>) -> Said
    ensures { result ≡ Emptied (answer_of answer) (emptied_of answer) }
{
    match answer {
        Ok(emptied) => Said::Emptied { number: 0, emptied },
        Err(refusal) => Said::Emptied {
            number: u32::from(refusal),
            emptied: 0,
        },
    }
}

// A translate tells its number and where it came to.
fn looked(answer: Result<Translation, Refusal>) -> Said
    ensures { result ≡ found answer }
{
    match answer {
        Ok(
            Translation {
                address,
                hit,
                links,
            },
        ) => Said::Translated {
            number: 0,
            address,
            hit,
            links,
        },
        Err(refusal) => Said::Translated {
            number: u32::from(refusal),
            address: 0,
            hit: false,
            links: 0,
        },
    }
}

// What a request does, by the call that it is.
fn judge<const SPACES: usize, const PAGES: usize, const SLOTS: usize, const PLACES: usize>(
    b: &mut Board<SPACES, PAGES, SLOTS, PLACES>,
    request: Request,
) -> Said
    ensures { turned result (tables b.new) ≡ spoken (Some request) (judged (sizes SPACES PAGES PLACES) (alone (tables b.old)) (Some request)) }
{
    match request {
        Request::Create { space } => answered(create(b, space)),
        Request::Delete { space } => answered(delete(b, space)),
        Request::Unmap {
            space,
            page,
            rights,
        } => answered(unmap(b, space, page, rights)),
        Request::Flush {
            space,
            page,
            rights,
        } => answered(flush(b, space, page, rights)),
        Request::Map {
            from,
            page,
            to,
            at,
            rights,
        } => answered(map(b, from, page, to, at, rights)),
        Request::Grant {
            from,
            page,
            to,
            at,
            rights,
        } => answered(grant(b, from, page, to, at, rights)),
        Request::Translate { space, at, rights } => looked(translate(b, space, at, rights)),
    }
}

// What a line, without its newline, does: a comment is skipped, and any other line is answered.
pub(crate) fn line_turn<
    const SPACES: usize,
    const PAGES: usize,
    const SLOTS: usize,
    const PLACES: usize,
>(b: &mut Board<SPACES, PAGES, SLOTS, PLACES>, line: &[u8]) -> Said
    ensures { turned result (tables b.new) ≡ turn (sizes SPACES PAGES PLACES) (alone (tables b.old)) line.now }
{
    if is_comment(line) {
        return Said::Silent;
    }
    match parse(line) {
        Some(request) => judge(b, request),
        None => Said::Garbled,
    }
}
