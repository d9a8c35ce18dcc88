ghost use Rattle.std.specs.Prelude.{◌≡◌, true, false, Ok, Err, MatchResult};
ghost use Rattle.items.specs.Layout.{said};
ghost use Rattle.items.specs.Placed.{opened, placed};

use super::item::{Header, Item};
use super::kind::Kind;
use records::{Record, RecordFault};

// The head that the first record of a file says.
pub fn open(raw: Record<'_>) -> Result<Header, RecordFault>
    ensures { result ≡ opened raw.entry.at raw.entry.kind raw.entry.body.now }
{
    let Ok(Kind::Head) = Kind::try_from(raw.kind) else {
        return Err(RecordFault::NoHead(raw.at));
    };
    let Some(Item::Head(head)) = Item::of(Kind::Head, raw.body) else {
        return Err(RecordFault::WrongLength(raw.at));
    };
    Ok(head)
}

// Form and group are numbers, as a head has the one and records are ordered by the other: enums would ask more of callers.
// What a later record says, under the form of the file's lock and the group of the record before it.
pub fn place(form: u8, group: u8, raw: Record<'_>) -> Result<Item<'_>, RecordFault>
    ensures { MatchResult result (λ i. placed form group raw.entry.at raw.entry.kind raw.entry.body.now ≡ Ok (said i)) (λ f. placed form group raw.entry.at raw.entry.kind raw.entry.body.now ≡ Err f) }
{
    let at = raw.at;
    let kind = Kind::try_from(raw.kind).map_err(|_| RecordFault::UnknownKind(at))?;
    if !kind.of_form(form) {
        return Err(RecordFault::OtherForm(at));
    }
    if kind.group() < group {
        return Err(RecordFault::OutOfOrder(at));
    }
    Item::of(kind, raw.body).ok_or(RecordFault::WrongLength(at))
}
