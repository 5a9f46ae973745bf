// Labels: what stands for an item's key among the bytes.
ghost use Rattle.std.specs.Prelude.{◌≡◌, true, ◌*◌, ◌+◌, ◌/◌, ◌<◌, ◌≤◌, length};
ghost use Rattle.klv.specs.Compact.{compact_read};
ghost use Rattle.klv.specs.Key.{key_at};
ghost use Rattle.groups.specs.Root.{root_bytes};
ghost use Rattle.groups.specs.Read.{Recorded};
ghost use Rattle.groups.specs.Tables.{find_tag, table_of};
ghost use Rattle.groups.specs.Label.{element_label, found_label, key_label, label_refusal, listed, read_label};
ghost use Rattle.groups.specs.Slots.{held_key};
ghost use Rattle.groups.specs.Arrays.{Put, is_other, label_bytes, other_label, wide};
ghost use Rattle.groups.specs.Coded.{compact_tags};

mod global;

use crate::kind::{Kind, is_global};
use crate::label::global::{global_label, put_tag, tag_width};
use crate::refusal::Refusal;
use crate::root::Group;
use crate::slots::held_key;
use crate::tables::{RECORD, Tables, find_tag, listed_key};
use klv::compact::Compact;
use klv::key::{Key, is_key, key_at, same_key};
use klv::layout::{Form, Layout, Number, NumberError};

// A label as read: how many bytes it occupied, and the key it stands for.
#[derive(Clone, Copy)]
pub struct Label {
    pub width: usize,
    pub key: Key,
}

// Why there is no label: the bytes end before it does; no key or tag begins so; a tag that the table has not.
#[derive(Clone, Copy)]
pub enum LabelError {
    CutOff,
    Malformed,
    Unlisted,
}

// Each cause has a row of its own.
impl From<LabelError> for Refusal {
    ghost from_gives = { λ e r. r ≡ label_refusal e };

    fn from(e: LabelError) -> Refusal {
        match e {
            LabelError::CutOff => Refusal::LabelCutOff,
            LabelError::Malformed => Refusal::LabelMalformed,
            LabelError::Unlisted => Refusal::LabelUnlisted,
        }
    }
}

// The label at the front of a slice: of a group's item, or of the pack element at this place.
pub(crate) fn read_label(
    group: Group,
    tagged: Compact,
    tables: &Tables,
    place: usize,
    s: &[u8],
) -> Result<Label, LabelError>
    requires { (tagged ≡ compact_tags group.kind)
        × (place ≤ 256)
        × Recorded group.kind tables.now.packs.now (place + 1) }
    ensures { result ≡ read_label group.kind (root_bytes group.root) (table_of tables.now.tags.now) (table_of tables.now.packs.now) place s.now }
{
    let kind = group.kind;
    let root = group.root;
    match kind {
        Kind::Universal => key_label(s),
        Kind::Global(_) => global_label(root, s),
        Kind::Local(_, _) => tag_label(tables.tags, tagged, place, s),
        Kind::Variable(_) | Kind::Defined => Ok(element_label(tables.packs, place)),
        Kind::NoGroup => Err(LabelError::Malformed),
    }
}

// The tag layout of a local set, with its compact numbers; BER for every other kind.
pub(crate) fn compact_tags(kind: Kind) -> Compact
    ensures { result ≡ compact_tags kind }
{
    let ber = Layout { form: Form::Ber };
    match kind {
        Kind::Local(layout, _) => layout.compact(),
        Kind::Universal | Kind::Global(_) | Kind::Variable(_) | Kind::Defined | Kind::NoGroup => {
            ber.compact()
        }
    }
}

// A universal set's item begins with its key.
fn key_label(s: &[u8]) -> Result<Label, LabelError>
    ensures { result ≡ key_label (key_at s.now) }
{
    match key_at(s, 0) {
        Some(key) if is_key(key) => Ok(Label { width: 16, key }),
        Some(_) => Err(LabelError::Malformed),
        None => Err(LabelError::CutOff),
    }
}

// A local set's tag is looked up in the tag table; `guess` is the record to try first.
fn tag_label(tags: &[u8], tagged: Compact, guess: usize, s: &[u8]) -> Result<Label, LabelError>
    ensures { result ≡ found_label (table_of tags.now) guess (compact_read tagged s.now) }
{
    match tagged.read(s, 0) {
        Ok(Number { value, width }) => tag_record(tags, guess, value, width),
        Err(NumberError::Missing) => Err(LabelError::CutOff),
        Err(NumberError::Malformed) => Err(LabelError::Malformed),
    }
}

// The label of a tag that occupied so many bytes.
fn tag_record(tags: &[u8], guess: usize, tag: u64, width: usize) -> Result<Label, LabelError>
    ensures { result ≡ listed (table_of tags.now) width (find_tag (table_of tags.now) guess tag) }
{
    match find_tag(tags, guess, tag) {
        Some(i) => Ok(Label {
            width,
            key: listed_key(tags, i),
        }),
        None => Err(LabelError::Unlisted),
    }
}

// A pack's element has no label among the bytes; the record has its key.
fn element_label(packs: &[u8], place: usize) -> Label
    requires { place < length packs.now / 20 }
    ensures { result ≡ record { width = 0; key = ((table_of packs.now).row place).key } }
{
    Label {
        width: 0,
        key: listed_key(packs, place),
    }
}

// How many bytes stand for the key of the item at this place in a global set or a pack, if any do; `keys` holds the items'
// keys.
pub(crate) fn label_width(group: Group, packs: &[u8], place: usize, keys: &[u8]) -> Option<usize>
    requires { (place ≤ 255)
        × (16 * place + 16 ≤ length keys.now) }
    ensures { result ≡ wide (other_label group.kind (root_bytes group.root) (table_of packs.now) place (held_key keys.now place)) }
{
    let kind = group.kind;
    let root = group.root;
    let key = held_key(keys, place);
    let global = is_global(kind);
    if global {
        return tag_width(root, key);
    }
    element_width(packs, place, key)
}

// An element's key must be the record's; it takes no bytes.
fn element_width(packs: &[u8], place: usize, key: Key) -> Option<usize>
    requires { place ≤ 256 }
    ensures { result ≡ wide (element_label (table_of packs.now) place key) }
{
    if place < packs.len() / RECORD {
        let same = same_key(listed_key(packs, place), key);
        if same {
            return Some(0);
        }
        return None;
    }
    None
}

// Writes what stands for the key of the item at this place in a global set or a pack at a position of a slice, if anything
// does; answers the next position.
pub(crate) fn put_label(group: Group, place: usize, keys: &[u8], out: &mut [u8], at: usize) -> usize
    requires { (is_other group.kind ≡ true)
        × (place ≤ 255)
        × (16 * place + 16 ≤ length keys.now)
        × (at + length (label_bytes group.kind (root_bytes group.root) (held_key keys.now place) 0) ≤ length out.old) }
    ensures { Put out.old at (label_bytes group.kind (root_bytes group.root) (held_key keys.now place) 0) out.new result }
{
    let kind = group.kind;
    let root = group.root;
    let global = is_global(kind);
    if global {
        return put_tag(root, keys, place, out, at);
    }
    at
}
