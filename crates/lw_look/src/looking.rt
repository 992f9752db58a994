// The look itself.
ghost use Rattle.std.specs.Prelude.{◌↔◌, IfOk, IsTrue};
ghost use Rattle.lw_look.specs.Looks.{Fits, IsDecided, IsFit, IsLook, IsPassed};

use crate::areas::{area_of, is_within};
use crate::depths::is_by_depth;
use crate::timing::is_in_time;
use crate::{Look, Looked};
use lw_extract::{Chosen, Cover, assemble};
use lw_netlist::Netlist;
use std::alloc::{AllocError, Global};

impl Look<'_> {
    // Whether a netlist stands by depth, takes no more than the area `most` in millionths, and
    // brings each output by its time.
    fn fits(&self, alloc: Global, netlist: &Netlist, most: u64) -> Result<bool, AllocError>
        requires ready { IsLook self.now }
        requires fit { IsFit self.now netlist.now }
        ensures { IfOk result (λ yes. IsTrue yes ↔ Fits self.now most netlist.now) }
    {
        if !is_within(self.lib, netlist, most) {
            return Ok(false);
        }
        if !is_by_depth(alloc, netlist)? {
            return Ok(false);
        }
        is_in_time(alloc, self.lib, self.starts, netlist, self.times)
    }

    // The netlist of a list of matches, if the list is right and the netlist fits with an area of
    // at most `most`; else none.
    fn passed(&self, alloc: Global, list: &[Chosen], most: u64) -> Result<Option<Cover>, AllocError>
        requires { IsLook self.now }
        ensures { IfOk result (IsPassed self.now most list.now) }
    {
        if !self.is_right_list(alloc, list)? {
            return Ok(None);
        }
        let _ = self.lib.len();
        let cover = assemble(alloc, self.graph, self.pats, self.ports, list)?;
        if self.fits(alloc, &cover.netlist, most)? {
            return Ok(Some(cover));
        }
        drop(cover);
        Ok(None)
    }

    /// The netlist of a list of matches if it passes with no more area than the first cover, else
    /// that cover, with `refused`.
    pub fn choose(&self, alloc: Global, list: &[Chosen], first: Cover) -> Result<Looked, AllocError>
        requires ready { IsLook self.now }
        requires first { IsFit self.now first.netlist }
        ensures { IfOk result (IsDecided self.now list.now first) }
    {
        let most = area_of(self.lib, &first.netlist);
        match self.passed(alloc, list, most)? {
            Some(cover) => {
                drop(first);
                Ok(Looked {
                    cover,
                    refused: false,
                })
            }
            None => Ok(Looked {
                cover: first,
                refused: true,
            }),
        }
    }
}
