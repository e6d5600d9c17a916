// The values that lists hold: addresses, values of objects, parts of transactions, regions,
// counters and bits.
ghost use Rattle.std.specs.Prelude.{◌≡◌};
ghost use Rattle.journal_xdr.specs.Items.{ReadsItem};
ghost use Rattle.journal_records.specs.Requests.{address};

use crate::answer::Counter;
use crate::array::Element;
use crate::fault::ReadFault;
use crate::greeting::ObjectRegion;
use crate::limits::VALUE_BYTES;
use crate::request::Part;
use journal_world::{Addr, Value};
use journal_xdr::{Reader, Writer};
use std::alloc::{AllocError, Global};

impl Element for Addr {
    ghost use Rattle.journal_records.specs.Requests.{address};
    ghost use Rattle.journal_records.specs.Limits.{is_short_address, address_short};

    ghost item = { address };

    ghost is_short = { is_short_address };

    ghost has_short = { address_short };

    fn read(_alloc: Global, reader: &mut Reader<'_>) -> Result<Addr, ReadFault> {
        read_address(reader).ok_or(ReadFault::Malformed)
    }

    fn is_short(&self) -> bool {
        true
    }

    #[tactic(auto, unfolding(crate::specs::Requests::address))]
    fn write(&self, writer: &mut Writer) -> Result<(), AllocError> {
        writer.hyper(self.block)?;
        writer.word(self.off)
    }
}

// Reads an address.
#[tactic(auto, unfolding(crate::specs::Requests::address))]
fn read_address(reader: &mut Reader<'_>) -> Option<Addr>
    ensures { ReadsItem address (λ addr. addr) reader.old reader.new result }
{
    Some(Addr {
        block: reader.hyper()?,
        off: reader.word()?,
    })
}

impl Element for Value {
    ghost use Rattle.journal_records.specs.Requests.{value};
    ghost use Rattle.journal_records.specs.Limits.{is_short_value, value_short};

    ghost item = { value };

    ghost is_short = { is_short_value };

    ghost has_short = { value_short };

    #[tactic(auto, unfolding(crate::specs::Requests::value))]
    fn read(alloc: Global, reader: &mut Reader<'_>) -> Result<Value, ReadFault> {
        let bytes = reader
            .opaque(VALUE_BYTES as u32)
            .ok_or(ReadFault::Malformed)?;
        Ok(Value::new(bytes.to_vec(alloc)?))
    }

    fn is_short(&self) -> bool {
        self.bytes().len() <= VALUE_BYTES
    }

    #[tactic(auto, unfolding(crate::specs::Requests::value))]
    fn write(&self, writer: &mut Writer) -> Result<(), AllocError> {
        writer.opaque(self.bytes())
    }
}

impl Element for Part {
    ghost use Rattle.journal_records.specs.Requests.{part};
    ghost use Rattle.journal_records.specs.Limits.{is_short_part, part_short};

    ghost item = { part };

    ghost is_short = { is_short_part };

    ghost has_short = { part_short };

    #[tactic(auto, unfolding(crate::specs::Requests::part))]
    fn read(alloc: Global, reader: &mut Reader<'_>) -> Result<Part, ReadFault> {
        Ok(Part {
            action: reader.enumeration().ok_or(ReadFault::Malformed)?,
            addr: Addr::read(alloc, reader)?,
            value: Value::read(alloc, reader)?,
        })
    }

    fn is_short(&self) -> bool {
        self.value.is_short()
    }

    #[tactic(auto, unfolding(crate::specs::Requests::part))]
    fn write(&self, writer: &mut Writer) -> Result<(), AllocError> {
        writer.enumeration(self.action)?;
        self.addr.write(writer)?;
        self.value.write(writer)
    }
}

impl Element for ObjectRegion {
    ghost use Rattle.journal_records.specs.Answers.{region};
    ghost use Rattle.journal_records.specs.Limits.{is_short_region, region_short};

    ghost item = { region };

    ghost is_short = { is_short_region };

    ghost has_short = { region_short };

    #[tactic(auto, unfolding(crate::specs::Answers::region))]
    fn read(_alloc: Global, reader: &mut Reader<'_>) -> Result<ObjectRegion, ReadFault> {
        Ok(ObjectRegion {
            first: reader.hyper().ok_or(ReadFault::Malformed)?,
            bits: reader.word().ok_or(ReadFault::Malformed)?,
        })
    }

    fn is_short(&self) -> bool {
        true
    }

    #[tactic(auto, unfolding(crate::specs::Answers::region))]
    fn write(&self, writer: &mut Writer) -> Result<(), AllocError> {
        writer.hyper(self.first)?;
        writer.word(self.bits)
    }
}

impl Element for Counter {
    ghost use Rattle.journal_records.specs.Answers.{counter};
    ghost use Rattle.journal_records.specs.Limits.{is_short_counter, counter_short};

    ghost item = { counter };

    ghost is_short = { is_short_counter };

    ghost has_short = { counter_short };

    #[tactic(auto, unfolding(crate::specs::Answers::counter))]
    fn read(_alloc: Global, reader: &mut Reader<'_>) -> Result<Counter, ReadFault> {
        Ok(Counter {
            name: reader.word().ok_or(ReadFault::Malformed)?,
            value: reader.hyper().ok_or(ReadFault::Malformed)?,
        })
    }

    fn is_short(&self) -> bool {
        true
    }

    #[tactic(auto, unfolding(crate::specs::Answers::counter))]
    fn write(&self, writer: &mut Writer) -> Result<(), AllocError> {
        writer.word(self.name)?;
        writer.hyper(self.value)
    }
}

impl Element for u32 {
    ghost use Rattle.journal_xdr.specs.Basic.{word};
    ghost use Rattle.journal_records.specs.Limits.{is_short_bit, bit_short};

    ghost item = { word };

    ghost is_short = { is_short_bit };

    ghost has_short = { bit_short };

    fn read(_alloc: Global, reader: &mut Reader<'_>) -> Result<u32, ReadFault> {
        reader.word().ok_or(ReadFault::Malformed)
    }

    fn is_short(&self) -> bool {
        true
    }

    fn write(&self, writer: &mut Writer) -> Result<(), AllocError> {
        writer.word(*self)
    }
}
