use jop_base::{Copied, Seq, Text};
use std::alloc::{AllocError, Global};

/// A key with its value, both as they stand in the text: a value isn't unescaped.
#[derive(Debug, Drop)]
pub struct Prop {
    pub key: Text,
    pub value: Text,
}

/// A note, a notebook, a tag, a resource or another item.
#[derive(Debug, Drop)]
pub struct Item {
    /// None if nothing stands above the pairs.
    pub title: Option<Text>,
    pub body: Text,
    /// In the order of the text. Of a repeated key the topmost pair counts.
    pub props: Seq<Prop>,
}

impl Copied for Prop {
    fn copy(&self, alloc: Global) -> Result<Prop, AllocError> {
        Ok(Prop {
            key: self.key.copy(alloc)?,
            value: self.value.copy(alloc)?,
        })
    }
}

impl Copied for Item {
    fn copy(&self, alloc: Global) -> Result<Item, AllocError> {
        let title = match &self.title {
            Some(title) => Some(title.copy(alloc)?),
            None => None,
        };
        Ok(Item {
            title,
            body: self.body.copy(alloc)?,
            props: self.props.copy(alloc)?,
        })
    }
}
