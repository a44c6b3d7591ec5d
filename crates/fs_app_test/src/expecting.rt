//! What tests are expected to be, as `--expect` says it.
use crate::comments::expected_of;
use crate::kinds::{Kinds, kind_by, kinds_of};
use crate::list_error::ListError;
use crate::names::test_name;
use crate::report::kind_text;
use crate::rows::Row;
use crate::said::Expected;
use fs_app_error_messages::shown_name;
use std::alloc::{AllocError, Global};
use std::collections::BTreeSet;

/// What is expected of tests.
#[derive(Drop)]
pub enum Expecting<'a> {
    /// What their comments say, if anything is asked of them.
    Comments,
    /// What a list says.
    List(Listed<'a>),
}

/// What a list says, and the names of the tests that were met.
#[derive(Drop)]
pub struct Listed<'a> {
    rows: Vec<Row<'a>>,
    kinds: Kinds<'a>,
    met: BTreeSet<String>,
}

impl<'a> Expecting<'a> {
    /// By the rows of a list. The error is that a name stands in two of them, or want of memory.
    pub fn by_list(alloc: Global, rows: Vec<Row<'a>>) -> Result<Self, ListError> {
        let kinds = kinds_of(alloc, &rows)?;
        Ok(Expecting::List(Listed {
            rows,
            kinds,
            met: BTreeSet::new(alloc),
        }))
    }

    /// What is expected of the test that these bytes are.
    pub(crate) fn expected(
        &mut self,
        alloc: Global,
        bytes: &[u8],
    ) -> Result<Option<Expected>, AllocError> {
        match self {
            Expecting::Comments => Ok(expected_of(bytes)),
            Expecting::List(listed) => listed.expected(alloc, bytes),
        }
    }

    /// A line for each row whose test wasn't met; none where comments say what is expected.
    pub fn not_met(&self, alloc: Global) -> Result<String, AllocError> {
        match self {
            Expecting::Comments => Ok(String::new(alloc)),
            Expecting::List(listed) => listed.not_met(alloc),
        }
    }
}

impl Listed<'_> {
    fn expected(&mut self, alloc: Global, bytes: &[u8]) -> Result<Option<Expected>, AllocError> {
        let Some(name) = test_name(alloc, bytes)? else {
            return Ok(None);
        };
        let expected = kind_by(&self.kinds, name.as_str()).map(Expected::Verdict);
        self.met.insert(name)?;
        Ok(expected)
    }

    fn not_met(&self, alloc: Global) -> Result<String, AllocError> {
        let mut text = String::new(alloc);
        for row in &self.rows {
            self.push_not_met(alloc, row, &mut text)?;
        }
        Ok(text)
    }

    fn push_not_met(
        &self,
        alloc: Global,
        row: &Row<'_>,
        text: &mut String,
    ) -> Result<(), AllocError> {
        if self.met.contains(row.name) {
            return Ok(());
        }
        let name = shown_name(alloc, row.name)?;
        writeln!(
            text,
            "error: no test is called {}, expected {}",
            name.as_str(),
            kind_text(row.kind)
        )
    }
}
