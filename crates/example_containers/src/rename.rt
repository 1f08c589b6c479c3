//! Renames bags of a PKCS #12 file without a MAC, those in bags too.

use crate::{ExampleError, Store, write_out};
use std::alloc::Global;
use x509_containers::{
    AuthenticatedSafeContentInfo, BmpString, Error, Pkcs12Attribute, SafeBag, SafeBagKind,
    SafeContents, SafeContentsContentInfo, StringError, TryClone, from_bytes,
};

/// The name that is looked for, and the one that takes its place.
#[derive(Drop)]
struct Names {
    old: BmpString,
    new: BmpString,
}

impl Names {
    /// Whether one of the attributes was the old name.
    fn rename_attributes(
        &self,
        alloc: Global,
        attributes: &mut Vec<Pkcs12Attribute>,
    ) -> Result<bool, Error> {
        let mut found = false;
        for attribute in attributes.iter_mut() {
            if let Pkcs12Attribute::FriendlyName(name) = attribute {
                if *name == self.old {
                    *name = self.new.try_clone(alloc)?;
                    found = true;
                }
            }
        }
        Ok(found)
    }

    /// Whether the bag, or one in it, had the old name.
    #[cycle(rename)]
    fn rename_bag(&self, alloc: Global, bag: &mut SafeBag) -> Result<bool, Error> {
        let mut found = false;
        if let Some(attributes) = &mut bag.attributes {
            found |= self.rename_attributes(alloc, attributes)?;
        }
        if let SafeBagKind::SafeContents(held) = &mut bag.kind {
            found |= self.rename_bags(alloc, held)?;
        }
        Ok(found)
    }

    /// Whether one of the bags, or one in them, had the old name.
    #[cycle(rename)]
    fn rename_bags(&self, alloc: Global, bags: &mut SafeContents) -> Result<bool, Error> {
        let mut found = false;
        for bag in bags.0.iter_mut() {
            found |= self.rename_bag(alloc, bag)?;
        }
        Ok(found)
    }
}

/// Whether a bag of the store had the old name.
fn rename_store(names: &Names, alloc: Global, pfx: &mut Store) -> Result<bool, Error> {
    let mut found = false;
    if let AuthenticatedSafeContentInfo::Data(contents) = &mut pfx.auth_safe {
        for content in contents.iter_mut() {
            if let SafeContentsContentInfo::Data(bags) = content {
                found |= names.rename_bags(alloc, bags)?;
            }
        }
    }
    Ok(found)
}

fn send_renamed(rt: &HostRuntime, names: &Names, pfx: &mut Store) -> Result<(), ExampleError> {
    if pfx.mac_data.is_some() {
        return Err(ExampleError::HasMac);
    }
    if !rename_store(names, rt.alloc(), pfx)? {
        return Err(ExampleError::NoSuchName);
    }
    write_out(rt, pfx)
}

/// The names of these texts.
fn names_of(alloc: Global, old: &str, new: &str) -> Result<Names, StringError> {
    let old = BmpString::from_text(alloc, old)?;
    let new = BmpString::from_text(alloc, new)?;
    Ok(Names { old, new })
}

fn send_file(rt: &HostRuntime, names: &Names, file: &[u8]) -> Result<(), ExampleError> {
    let mut pfx: Store = from_bytes(rt.alloc(), file)?;
    send_renamed(rt, names, &mut pfx)
}

/// Writes the file with each bag of the old name under the new one.
pub fn rename(rt: &HostRuntime, old: &str, new: &str, file: &[u8]) -> Result<(), ExampleError> {
    send_file(rt, &names_of(rt.alloc(), old, new)?, file)
}
