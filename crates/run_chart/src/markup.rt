//! A small writer of elements, which escapes every text that it is given.
ghost use Rattle.std.specs.Prelude.{◌≡◌, [], ◌++◌, OnOk};
ghost use Rattle.std.specs.List.{flat_map};
ghost use Rattle.run_chart.specs.Markup as markup;

use itoa::Buffer;
use std::alloc::{AllocError, Global};
use std::marker::Model;

/// What an attribute is set to.
#[derive(Clone, Copy)]
pub enum Value<'a> {
    Number(u64),
    /// Numbers, as the corners of a line.
    Numbers(&'a [u64]),
    Text(&'a [u8]),
}

/// An attribute of an element. Its name stands as it is.
#[derive(Clone, Copy)]
pub struct Attribute<'a> {
    pub name: &'a [u8],
    pub value: Value<'a>,
}

impl<'a> Attribute<'a> {
    pub fn number(name: &'a [u8], number: u64) -> Attribute<'a>
        ensures { markup.attribute result ≡ markup.number_attribute name.now number }
    {
        Attribute {
            name,
            value: Value::Number(number),
        }
    }

    pub fn numbers(name: &'a [u8], numbers: &'a [u64]) -> Attribute<'a>
        ensures { markup.attribute result ≡ markup.numbers_attribute name.now numbers.now }
    {
        Attribute {
            name,
            value: Value::Numbers(numbers),
        }
    }

    pub fn text(name: &'a [u8], text: &'a [u8]) -> Attribute<'a>
        ensures { markup.attribute result ≡ markup.text_attribute name.now text.now }
    {
        Attribute {
            name,
            value: Value::Text(text),
        }
    }
}

/// Markup in the making: the bytes so far.
#[derive(Drop)]
pub struct Markup {
    bytes: Vec<u8>,
}

impl Model for Markup {
    ghost use Rattle.std.specs.Prelude.{ℕ, List};

    ghost Value = { List ℕ };

    ghost view = { λ m. m.bytes.items };
}

impl Markup {
    pub fn new(alloc: Global) -> Markup
        ensures { result ≡ [] }
    {
        Markup {
            bytes: Vec::new(alloc),
        }
    }

    /// The bytes.
    pub fn into_bytes(self) -> Vec<u8>
        ensures { result.items ≡ self }
    {
        self.bytes
    }

    /// Markup that is whole already: it stands as it is.
    pub fn verbatim(&mut self, text: &[u8]) -> Result<(), AllocError>
        ensures { OnOk result (self.new ≡ self.old ++ text.now) }
    {
        self.bytes.extend_from_slice(text)
    }

    fn escaped_byte(&mut self, byte: u8) -> Result<(), AllocError>
        ensures { OnOk result (self.new ≡ self.old ++ markup.escaped_byte byte) }
    {
        match byte {
            b'&' => self.verbatim(b"&amp;"),
            b'<' => self.verbatim(b"&lt;"),
            b'>' => self.verbatim(b"&gt;"),
            b'"' => self.verbatim(b"&quot;"),
            _ => self.verbatim(&[byte]),
        }
    }

    /// Text, with the bytes that markup is made of escaped.
    pub fn text(&mut self, text: &[u8]) -> Result<(), AllocError>
        ensures { OnOk result (self.new ≡ self.old ++ markup.escaped text.now) }
    {
        for byte in text {
            self.escaped_byte(*byte)?;
        }
        Ok(())
    }

    fn number(&mut self, number: u64) -> Result<(), AllocError>
        ensures { OnOk result (self.new ≡ self.old ++ markup.number number) }
    {
        let mut digits = Buffer::new();
        self.verbatim(digits.format(number).as_bytes())
    }

    fn numbers(&mut self, numbers: &[u64]) -> Result<(), AllocError>
        ensures { OnOk result (self.new ≡ self.old ++ flat_map markup.spaced numbers.now) }
    {
        for number in numbers {
            self.number(*number)?;
            self.verbatim(b" ")?;
        }
        Ok(())
    }

    fn value(&mut self, value: Value<'_>) -> Result<(), AllocError>
        ensures { OnOk result (self.new ≡ self.old ++ markup.value value.entry) }
    {
        match value {
            Value::Number(number) => self.number(number),
            Value::Numbers(numbers) => self.numbers(numbers),
            Value::Text(text) => self.text(text),
        }
    }

    fn attribute(&mut self, attribute: Attribute<'_>) -> Result<(), AllocError>
        ensures { OnOk result (self.new ≡ self.old ++ markup.attribute attribute.entry) }
    {
        self.verbatim(b" ")?;
        self.verbatim(attribute.name)?;
        self.verbatim(b"=\"")?;
        self.value(attribute.value)?;
        self.verbatim(b"\"")
    }

    fn attributes(&mut self, attributes: &[Attribute<'_>]) -> Result<(), AllocError>
        ensures { OnOk result (self.new ≡ self.old ++ flat_map markup.attribute attributes.now) }
    {
        for attribute in attributes {
            self.attribute(*attribute)?;
        }
        Ok(())
    }

    /// The tag that begins an element.
    pub fn open(&mut self, name: &[u8], attributes: &[Attribute<'_>]) -> Result<(), AllocError>
        ensures { OnOk result (self.new ≡ self.old ++ markup.opened name.now (flat_map markup.attribute attributes.now)) }
    {
        self.verbatim(b"<")?;
        self.verbatim(name)?;
        self.attributes(attributes)?;
        self.verbatim(b">")
    }

    /// The tag that ends an element.
    pub fn close(&mut self, name: &[u8]) -> Result<(), AllocError>
        ensures { OnOk result (self.new ≡ self.old ++ markup.closed name.now) }
    {
        self.verbatim(b"</")?;
        self.verbatim(name)?;
        self.verbatim(b">\n")
    }

    /// An element with a text.
    pub fn element(
        &mut self,
        name: &[u8],
        attributes: &[Attribute<'_>],
        text: &[u8],
    ) -> Result<(), AllocError>
        ensures { OnOk result (self.new ≡ self.old ++ markup.element name.now (flat_map markup.attribute attributes.now) text.now) }
    {
        self.open(name, attributes)?;
        self.text(text)?;
        self.close(name)
    }
}
