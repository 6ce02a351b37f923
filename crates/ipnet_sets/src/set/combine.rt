//! The result of an operation on two sets.
ghost use Rattle.std.specs.Prelude.{IfOk};
ghost use Rattle.ipnet_sets.specs.Members.{IsResultOf, HasNoMoreRanges};

use crate::boundaries;
use crate::operation::Operation;
use crate::set::IpSet;
use std::alloc::{AllocError, Global};

impl IpSet {
    /// Returns the result of the operation on this set and the other. Fails only if memory runs out.
    ///
    /// ```text
    /// Operation::Intersection of 10.0.0.0-10.0.0.5 and 10.0.0.3-10.0.0.9: 10.0.0.3-10.0.0.5
    /// ```
    pub fn combine(
        &self,
        alloc: Global,
        operation: Operation,
        other: &IpSet,
    ) -> Result<IpSet, AllocError>
        ensures members { IfOk result (λ s. IsResultOf operation s self.now other.now) }
        ensures ranges { IfOk result (λ s. HasNoMoreRanges s self.now other.now) }
    {
        let ipv4 = boundaries::combine(
            alloc,
            operation,
            self.ipv4.as_slice(),
            other.ipv4.as_slice(),
        )?;
        let ipv6 = boundaries::combine(
            alloc,
            operation,
            self.ipv6.as_slice(),
            other.ipv6.as_slice(),
        )?;
        Ok(IpSet { ipv4, ipv6 })
    }
}
