//! A maker whose second table is refused.
ghost use Rattle.std.specs.Prelude.{◌≡◌, refl};

use bwe_specs::OutOfMemory;
use demand_book::{Maker, Report};
use report_book::{SmallMaker, SmallTable};
use std::alloc::Global;

#[derive(Drop)]
pub struct BalkyMaker {
    maker: SmallMaker,
    tables: u32,
}

impl BalkyMaker {
    pub fn new(maker: SmallMaker) -> BalkyMaker
        ensures { result.maker ≡ maker }
    {
        BalkyMaker { maker, tables: 0 }
    }
}

impl Maker for BalkyMaker {
    type Table = SmallTable;

    type Plan = (u32, u32);

    ghost plan = { λ balky. ⟦<SmallMaker as Maker>⟧.plan balky.maker };

    ghost plan_tasks = { λ plan. ⟦<SmallMaker as Maker>⟧.plan_tasks plan };

    ghost plan_links = { λ plan. ⟦<SmallMaker as Maker>⟧.plan_links plan };

    ghost absorbed = { λ balky reports. ⟦<SmallMaker as Maker>⟧.absorbed balky.maker reports };

    ghost table_of = { λ plan reports. ⟦<SmallMaker as Maker>⟧.table_of plan reports };

    ghost covers_all = { λ plan reports. refl };

    ghost one_frame = { λ plan reports others. refl };

    ghost same_tasks = { λ plan reports. refl };

    fn tasks(&self) -> u32 {
        self.maker.tasks()
    }

    fn links(&self) -> u32 {
        self.maker.links()
    }

    fn absorb(&mut self, alloc: Global, report: Report) -> Result<(), OutOfMemory> {
        self.maker.absorb(alloc, report)
    }

    fn table(&mut self, alloc: Global) -> Result<SmallTable, OutOfMemory> {
        self.tables = self.tables.saturating_add(1);
        if self.tables == 2 {
            return Err(OutOfMemory);
        }
        self.maker.table(alloc)
    }
}
