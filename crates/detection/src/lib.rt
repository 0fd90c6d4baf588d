// Detection leaves: what a cell sees of the hypervisor when it executes the cpuid instruction.
#![tactic(auto)]

ghost use Rattle.std.specs.Prelude.{◌≡◌};
ghost use Rattle.detection.specs.Detection.{cpuid as cpuid_of};

// The four registers that an execution of cpuid leaves.
#[derive(Clone, Copy, PartialEq, Eq)]
pub struct Leaf {
    pub eax: u32,
    pub ebx: u32,
    pub ecx: u32,
    pub edx: u32,
}

// The registers of a leaf; `passed` are those of the processor itself.
#[tactic(auto, unfolding(crate::specs::Detection::cpuid, crate::specs::Detection::marked, crate::specs::Detection::signature, crate::specs::Detection::features))]
pub fn cpuid(leaf: u32, passed: Leaf) -> Leaf
    ensures { result ≡ cpuid_of leaf passed }
{
    match leaf {
        1 => Leaf {
            ecx: passed.ecx % 0x8000_0000 + 0x8000_0000,
            ..passed
        },
        0x4000_0000 => Leaf {
            eax: 0x4000_0001,
            ebx: 0x6c69_614a,
            ecx: 0x7375_6f68,
            edx: 0x0000_0065,
        },
        0x4000_0001 => Leaf {
            eax: 0,
            ebx: 0,
            ecx: 0,
            edx: 0,
        },
        _ => passed,
    }
}
