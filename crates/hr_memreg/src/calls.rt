//! What a registry in memory answers to the calls of a connection (OCI Distribution 1.1,
//! "Endpoints", and the catalog of the Docker registry).
ghost use Rattle.hr_memreg.specs.Mem.{seen_of};

use crate::MemRegistry;
use crate::standing::Fate;
use crate::writing::Begun;
use hr_adapter::{RegFault, Registry, TagNow, Tagged};
use hr_base::{List, MANIFEST_LIMIT, Memory};
use hr_digest::Digest;
use hr_event::{Fetched, Reference};
use hr_name::Name;

impl Registry for MemRegistry {
    ghost seen = { seen_of };

    fn repos(&mut self) -> Result<List<Name>, RegFault> {
        self.ask()?;
        self.list_repos(self.alloc)
    }

    fn tags(&mut self, repo: &Name) -> Result<List<Tagged>, RegFault> {
        self.ask()?;
        self.list_tags(self.alloc, repo)
    }

    fn head(&mut self, repo: &Name, reference: &Reference) -> Result<Option<Digest>, RegFault> {
        self.ask()?;
        Ok(self.held().head(repo, reference))
    }

    fn manifest(
        &mut self,
        repo: &Name,
        reference: &Reference,
    ) -> Result<Option<Fetched>, RegFault> {
        self.ask()?;
        self.fetch(repo, reference)
    }

    fn put_manifest(
        &mut self,
        repo: &Name,
        reference: &Reference,
        media: &[u8],
        bytes: &[u8],
    ) -> Result<(), RegFault> {
        match self.operate()? {
            Fate::Done => {
                let len = bytes.len() as u64;
                if len > MANIFEST_LIMIT {
                    return Err(RegFault::TooLong { len });
                }
                self.store_manifest(repo, reference, media, bytes)?;
                Ok(())
            }
            Fate::Lost => Err(self.fail()),
            Fate::Landed => {
                self.store_manifest(repo, reference, media, bytes)?;
                Err(self.fail())
            }
        }
    }

    fn has_blob(&mut self, repo: &Name, digest: &Digest) -> Result<Option<u64>, RegFault> {
        self.ask()?;
        Ok(self.held().blob_len(repo, digest))
    }

    fn open_blob(&mut self, repo: &Name, digest: &Digest) -> Result<bool, RegFault> {
        self.close();
        self.ask()?;
        Ok(self.open(repo, digest)?)
    }

    fn read_blob(&mut self, buf: &mut [u8]) -> Result<usize, RegFault> {
        Ok(self.read(buf))
    }

    fn begin_put(&mut self, repo: &Name) -> Result<(), RegFault> {
        self.drop_writing();
        self.operate()?;
        self.begin(repo)?;
        Ok(())
    }

    fn write_put(&mut self, bytes: &[u8]) -> Result<(), RegFault> {
        self.write(bytes)
    }

    fn end_put(&mut self, digest: &Digest) -> Result<(), RegFault> {
        let Begun {
            repo,
            bytes,
            broken: _,
            number,
        } = self.take_writing();
        match self.fate_at(number) {
            Fate::Done => {
                self.store_blob(&repo, *digest, bytes)?;
                Ok(())
            }
            Fate::Lost => Err(self.fail()),
            Fate::Landed => {
                self.store_blob(&repo, *digest, bytes)?;
                Err(self.fail())
            }
        }
    }

    fn shown(&self) -> Result<List<TagNow>, Memory> {
        self.held().shown(self.alloc)
    }

    fn count(&self) -> u64 {
        self.faults()
    }
}
