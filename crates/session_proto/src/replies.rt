//! Replies: what answers a statement, as fields and as bytes.
ghost use Rattle.std.specs.Prelude.{◌≡◌, [], ◌∷◌, map, codes, IfOk, OnOk};
ghost use Rattle.serde_json.specs.Data.{object};
ghost use Rattle.serde_json.specs.Written.{compact_text};
ghost use Rattle.serde_json.specs.View.{view, items_view, members_view};
ghost use Rattle.session_proto.specs.Replies.{num, text, Ascends, put, field_of, member_of, field_data, pair_data, pairs_data, members_data, reply_text, IsPlaceOf};

use crate::names::{keys, statuses};
use package_judge::Package;
use serde_json::{Map, Value, json};
use std::alloc::{AllocError, Global};
use std::cmp::Ordering;
use std::marker::Model;

/// What a key has.
#[derive(Debug, Drop)]
pub enum Field {
    Num(u64),
    Text(String),
    Pairs(Package),
    Flag(bool),
}

/// A key with its value.
#[derive(Debug, Drop)]
pub struct Member {
    pub key: String,
    pub value: Field,
}

/// One object of fields whose keys ascend by their bytes, and the bytes that follow its line.
#[derive(Debug, Drop)]
pub struct Reply {
    members: Vec<Member>,
    tail: Vec<u8>,
}

impl Model for Reply {
    ghost use Rattle.std.specs.Prelude.{map};
    ghost use Rattle.session_proto.specs.Replies.{ReplyData, Ascends, member_of};

    ghost Value = { ReplyData };

    ghost view = { λ r. record { members = map member_of r.members.items; tail = r.tail.items } };

    ghost invariant = { λ r. Ascends (map member_of r.members.items) };
}

impl Reply {
    /// No fields, and no tail. It takes no memory.
    pub(crate) fn new(alloc: Global) -> Reply
        ensures { result ≡ record { members = []; tail = [] } }
    {
        Reply {
            members: Vec::new(alloc),
            tail: Vec::new(alloc),
        }
    }

    /// One field more, at its place. It takes the place of a field with the same key.
    pub(crate) fn with(self, alloc: Global, key: &str, value: Field) -> Result<Reply, AllocError>
        ensures { IfOk result (λ reply. reply ≡ record {
          members = put key.now (field_of value) self.members;
          tail = self.tail;
        }) }
    {
        let Reply { members, tail } = self;
        let mut members = members;
        put_in(alloc, &mut members, key, value)?;
        Ok(Reply { members, tail })
    }

    /// One text more.
    pub(crate) fn with_text(
        self,
        alloc: Global,
        key: &str,
        words: &str,
    ) -> Result<Reply, AllocError>
        ensures { IfOk result (λ reply. reply ≡ record {
          members = put key.now (text words.now) self.members;
          tail = self.tail;
        }) }
    {
        let words = String::from_str(alloc, words)?;
        self.with(alloc, key, Field::Text(words))
    }

    /// The same reply with other bytes after its line.
    pub(crate) fn with_tail(self, tail: Vec<u8>) -> Reply
        ensures { result ≡ record { members = self.members; tail = tail.items } }
    {
        Reply {
            members: self.members,
            tail,
        }
    }

    /// A reply that has a status alone.
    pub(crate) fn of_status(alloc: Global, status: &str) -> Result<Reply, AllocError>
        ensures { IfOk result (λ reply. reply ≡ record {
          members = (codes "status", text status.now) ∷ [];
          tail = [];
        }) }
    {
        Reply::new(alloc).with_text(alloc, keys::STATUS, status)
    }

    /// One number more.
    pub(crate) fn with_number(
        self,
        alloc: Global,
        key: &str,
        number: u64,
    ) -> Result<Reply, AllocError>
        ensures { IfOk result (λ reply. reply ≡ record {
          members = put key.now (num number) self.members;
          tail = self.tail;
        }) }
    {
        self.with(alloc, key, Field::Num(number))
    }

    /// The fields, in the order of their keys.
    pub fn members(&self) -> &[Member]
        ensures members { map member_of result.now ≡ self.now.members }
        ensures ascends { Ascends self.now.members }
    {
        self.members.as_slice()
    }

    /// The bytes after the line.
    pub fn tail(&self) -> &[u8]
        ensures { result.now ≡ self.now.tail }
    {
        self.tail.as_slice()
    }
}

// The place of a key, and whether a field with this key is there.
fn place_of(members: &[Member], key: &str) -> (usize, bool)
    ensures { IsPlaceOf key.now (map member_of members.now) result.0 result.1 }
{
    for (at, member) in members.iter().enumerate() {
        match key.cmp(member.key.as_str()) {
            Ordering::Less => return (at, false),
            Ordering::Equal => return (at, true),
            Ordering::Greater => {}
        }
    }
    (members.len(), false)
}

fn put_in(
    alloc: Global,
    members: &mut Vec<Member>,
    key: &str,
    value: Field,
) -> Result<(), AllocError>
    ensures { OnOk result (map member_of members.new.items
        ≡ put key.now (field_of value) (map member_of members.old.items)) }
{
    let (at, same) = place_of(members, key);
    if same {
        members[at].value = value;
        return Ok(());
    }
    let key = String::from_str(alloc, key)?;
    members.insert(at, Member { key, value })?;
    Ok(())
}

fn pair_of(alloc: Global, pair: (u64, u32)) -> Result<Value, AllocError>
    ensures { IfOk result (λ value. view value ≡ pair_data pair) }
{
    let (id, count) = pair;
    json!(in alloc; [id, count])
}

fn pairs_of(alloc: Global, pairs: &[(u64, u32)]) -> Result<Vec<Value>, AllocError>
    ensures { IfOk result (λ list. items_view list.items ≡ pairs_data pairs.now) }
{
    let mut list = Vec::new(alloc);
    for pair in pairs {
        list.push(pair_of(alloc, *pair)?)?;
    }
    Ok(list)
}

fn value_of(alloc: Global, field: &Field) -> Result<Value, AllocError>
    ensures { IfOk result (λ value. view value ≡ field_data (field_of field.now)) }
{
    match field {
        Field::Num(number) => Ok(Value::from(*number)),
        Field::Text(words) => Value::try_from_str(alloc, words.as_str()),
        Field::Pairs(package) => Ok(Value::Array(pairs_of(alloc, package.pairs())?)),
        Field::Flag(truth) => Ok(Value::Bool(*truth)),
    }
}

// The members as JSON's, made from the last one on, so that each becomes the first.
fn object_of(alloc: Global, members: &[Member]) -> Result<Map<String, Value>, AllocError>
    requires { Ascends (map member_of members.now) }
    ensures { IfOk result (λ object.
        members_view object.entries ≡ members_data (map member_of members.now)) }
{
    let Some((first, rest)) = members.split_first() else {
        return Ok(Map::new(alloc));
    };
    let mut object = object_of(alloc, rest)?;
    let value = value_of(alloc, &first.value)?;
    serde_json::put(&mut object, alloc, first.key.as_str(), value)?;
    Ok(object)
}

// The object of the members, in compact JSON.
fn object_text(alloc: Global, members: &[Member]) -> Result<Vec<u8>, AllocError>
    requires { Ascends (map member_of members.now) }
    ensures { IfOk result (λ bytes.
        bytes.items ≡ compact_text (object (members_data (map member_of members.now)))) }
{
    let object = Value::Object(object_of(alloc, members)?);
    let text = object.to_vec(alloc)?;
    Ok(text)
}

/// The line of a reply, its line feed, and the bytes after it.
pub fn reply_bytes(alloc: Global, reply: &Reply) -> Result<Vec<u8>, AllocError>
    ensures { IfOk result (λ bytes. bytes.items ≡ reply_text reply.now) }
{
    let mut bytes = object_text(alloc, reply.members())?;
    bytes.push(b'\n')?;
    bytes.extend_from_slice(reply.tail())?;
    Ok(bytes)
}
