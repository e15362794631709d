ghost use Rattle.std.specs.Prelude.{◌≡◌, ◌<◌, ◌++◌, length, true, nat_lt, codes, ◌↔◌, IsTrue, IfOk, encode_utf8_all};
ghost use Rattle.std.specs.List.{list_all};
ghost use Rattle.std.specs.Str.{chars};
ghost use Rattle.xs_xml_out.specs.Written.{name_at};
ghost use Rattle.xs_xml_out.specs.Tags.{tags_of};

use std::alloc::Global;
use std::marker::Model;
use xs_class::{Memory, Names, Text};

/// The texts of the tags of a name.
#[derive(Debug, Drop)]
pub struct NameTags {
    /// The opening of an element, up to its name.
    opening: Text,
    /// The end of a start tag, and the opening of an element in it.
    nested: Text,
    /// An attribute up to its value.
    attribute: Text,
    /// An end tag.
    closing: Text,
}

/// The texts of the tags of names, which contracts see as the list of the names.
#[derive(Debug, Drop)]
pub struct Tags {
    all: Vec<NameTags>,
}

impl Model for Tags {
    ghost use Rattle.std.specs.Prelude.{List, ℕ, map};
    ghost use Rattle.xs_xml_out.specs.Tags.{tagged_name, AreTags};

    ghost Value = { List (List ℕ) };

    ghost view = { λ t. map tagged_name t.all.items };

    ghost invariant = { λ t. AreTags t.all.items };
}

/// A name between two texts of ASCII.
fn framed(alloc: Global, front: &str, name: &str, back: &str) -> Result<Text, Memory>
    requires front { list_all (λ b. nat_lt b 128) front.now ≡ true }
    requires back { list_all (λ b. nat_lt b 128) back.now ≡ true }
    ensures { IfOk result (λ text. text ≡ front.now ++ chars name.now ++ back.now) }
{
    let mut text = Text::new(alloc);
    text.push_ascii(front)?;
    text.push_str(name)?;
    text.push_ascii(back)?;
    Ok(text)
}

/// The texts of the tags of a name.
fn tags_of(alloc: Global, name: &str) -> Result<NameTags, Memory>
    ensures { IfOk result (λ tags. tags ≡ tags_of (chars name.now)) }
{
    let opening = framed(alloc, "<", name, "")?;
    let nested = framed(alloc, "><", name, "")?;
    let attribute = framed(alloc, " ", name, "=\"")?;
    let closing = framed(alloc, "</", name, ">")?;
    Ok(NameTags {
        opening,
        nested,
        attribute,
        closing,
    })
}

impl Tags {
    /// The tags of the names, in time linear in these.
    pub fn of(alloc: Global, names: &Names) -> Result<Tags, Memory>
        ensures { IfOk result (λ tags. tags ≡ names.now) }
    {
        let mut all = Vec::with_capacity(alloc, names.len() as usize)?;
        'names: for k in 0..names.len() {
            all.push(tags_of(alloc, names.name(k))?)?;
        }
        Ok(Tags { all })
    }

    /// Whether this is the number of one of the names.
    pub fn has(&self, k: u32) -> bool
        ensures { IsTrue result ↔ (k < length self.now) }
    {
        (k as usize) < self.all.len()
    }

    /// The opening of an element after content.
    #[inline(always)]
    pub fn opening(&self, k: u32) -> &str
        requires { k < length self.now }
        ensures { result.now ≡ encode_utf8_all (codes "<" ++ name_at self.now k) }
    {
        self.all[k as usize].opening.as_str()
    }

    /// The opening of an element in a start tag.
    #[inline(always)]
    pub fn nested(&self, k: u32) -> &str
        requires { k < length self.now }
        ensures { result.now ≡ encode_utf8_all (codes "><" ++ name_at self.now k) }
    {
        self.all[k as usize].nested.as_str()
    }

    /// The beginning of an attribute.
    #[inline(always)]
    pub fn attribute(&self, k: u32) -> &str
        requires { k < length self.now }
        ensures { result.now ≡ encode_utf8_all (codes " " ++ name_at self.now k ++ codes "=\"") }
    {
        self.all[k as usize].attribute.as_str()
    }

    /// The end tag of an element.
    #[inline(always)]
    pub fn closing(&self, k: u32) -> &str
        requires { k < length self.now }
        ensures { result.now ≡ encode_utf8_all (codes "</" ++ name_at self.now k ++ codes ">") }
    {
        self.all[k as usize].closing.as_str()
    }
}
