use crate::extent::Extent;
use crate::fields::text_after;
use crate::kind::Kind;
use crate::sums::count_on;
use crate::texts::{append, copy_of};
use book_commodity::{OutOfMemory, Text};
use book_statement::add_piece;
use std::alloc::Global;
use std::marker::Model;

/// A record whose continuations may still come.
#[derive(Drop)]
pub struct Pending {
    line: u64,
    kind: Kind,
    lines: u64,
    body: Text,
    text: Text,
    /// How far its fields reach, from its first continuation on.
    extent: Option<Extent>,
}

impl Model for Pending {
    ghost use Rattle.bai2_read.specs.Extent.{MayHaveExtent};
    ghost use Rattle.bai2_read.specs.Records.{Record};

    ghost Value = { Record };

    ghost view = { λ p. record { line = p.line; kind = p.kind; lines = p.lines; body = p.body; text = p.text } };

    ghost invariant = { λ p. MayHaveExtent p.kind p.body p.extent };
}

impl Pending {
    ghost use Rattle.std.specs.Prelude.{◌≡◌, [], IfOk};
    ghost use Rattle.bai2_read.specs.Kept.{with_more};
    ghost use Rattle.bai2_read.specs.Kinds.{continues};
    ghost use Rattle.bai2_read.specs.Records.{whole};
    ghost use Rattle.bai2_read.specs.Summaries.{BeginsField};

    /// The record of a line without continuations.
    pub fn begin(alloc: Global, line: u64, kind: Kind, body: &str) -> Result<Pending, OutOfMemory>
        ensures { IfOk result (λ begun. begun ≡ whole line kind body.now []) }
    {
        Ok(Pending {
            line,
            kind,
            lines: 1,
            body: copy_of(alloc, body)?,
            text: Text::new(alloc),
            extent: None,
        })
    }

    /// Whether a continuation may stand behind it.
    pub fn may_go_on(&self) -> bool
        ensures { result ≡ continues self.now.kind }
    {
        matches!(
            self.kind,
            Kind::FileHeader
                | Kind::GroupHeader
                | Kind::AccountHeader
                | Kind::Detail
                | Kind::Continuation
        )
    }

    /// The record with one continuation more, which has these fields.
    pub fn with_more(self, alloc: Global, more: &str) -> Result<Pending, OutOfMemory>
        requires { BeginsField more.now }
        ensures { IfOk result (λ longer. longer ≡ with_more self more.now) }
    {
        let Pending {
            line,
            kind,
            lines,
            mut body,
            mut text,
            extent,
        } = self;
        let mut extent = Extent::kept(extent, kind, body.as_str().as_bytes());
        if extent.is_full(kind) {
            add_piece(alloc, &mut text, text_after(more, 0))?;
        } else {
            append(alloc, &mut body, more)?;
            extent = extent.grown(kind, body.as_str().as_bytes(), more.as_bytes())?;
        }
        Ok(Pending {
            line,
            kind,
            lines: count_on(lines, 1)?,
            body,
            text,
            extent: Some(extent),
        })
    }

    /// Its first line, counted from 1.
    pub fn line(&self) -> u64
        ensures { result ≡ self.now.line }
    {
        self.line
    }

    /// Its kind, by its code.
    pub fn kind(&self) -> Kind
        ensures { result ≡ self.now.kind }
    {
        self.kind
    }

    /// How many lines it has.
    pub fn lines(&self) -> u64
        ensures { result ≡ self.now.lines }
    {
        self.lines
    }

    /// Its fields, each behind a comma.
    pub fn body(&self) -> &str
        ensures { result.now ≡ self.now.body }
    {
        self.body.as_str()
    }

    /// The text that continuations add to a detail.
    pub fn text(&self) -> &str
        ensures { result.now ≡ self.now.text }
    {
        self.text.as_str()
    }

    /// Its fields, each behind a comma.
    pub fn into_body(self) -> Text
        ensures { result ≡ self.body }
    {
        let Pending { body, .. } = self;
        body
    }
}
