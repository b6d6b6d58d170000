//! The records of a text.
ghost use Rattle.std.specs.Prelude.{◌≡◌};

use std::marker::Model;

/// A field: its name, and its body, as `Type` and `language` of the line `Type: language`. A contract sees the
/// pair of their bytes.
#[derive(Debug, Drop)]
pub struct JarField {
    /// The name, in the case in which the text has it.
    pub name: String,
    /// The body, with its continuation lines joined to it by single spaces.
    pub body: String,
}

impl Model for JarField {
    ghost use Rattle.std.specs.Prelude.{string_bytes};
    ghost use Rattle.lt_jar.specs.Records.{Field};

    ghost Value = { Field };

    ghost view = { λ f. (string_bytes f.name, string_bytes f.body) };
}

impl JarField {
    /// The name, in the case in which the text has it.
    pub fn name(&self) -> &str
        ensures { result.now ≡ self.now.0 }
    {
        &self.name
    }

    /// The body, with its continuation lines joined to it by single spaces.
    pub fn body(&self) -> &str
        ensures { result.now ≡ self.now.1 }
    {
        &self.body
    }
}

/// A record: its fields, in the order of the text. A contract sees the list of them.
#[derive(Debug, Drop)]
pub struct Record {
    /// The fields.
    pub fields: Vec<JarField>,
}

impl Model for Record {
    ghost use Rattle.std.specs.Prelude.{List};
    ghost use Rattle.lt_jar.specs.Records.{Field};

    ghost Value = { List Field };

    ghost view = { λ r. r.fields.items };
}

impl Record {
    /// The fields. `read_jar` gives each record at least one.
    pub fn fields(&self) -> &[JarField]
        ensures { result.now ≡ self.now }
    {
        &self.fields
    }
}

/// The records of a text, in its order. A contract sees the list of them.
#[derive(Debug, Drop)]
pub struct Jar {
    /// The records.
    pub records: Vec<Record>,
}

impl Model for Jar {
    ghost use Rattle.std.specs.Prelude.{List};
    ghost use Rattle.lt_jar.specs.Records.{Field};

    ghost Value = { List (List Field) };

    ghost view = { λ j. j.records.items };
}

impl Jar {
    /// The records, the header among them. `read_jar` gives at most 100,000.
    pub fn records(&self) -> &[Record]
        ensures { result.now ≡ self.now }
    {
        &self.records
    }
}
