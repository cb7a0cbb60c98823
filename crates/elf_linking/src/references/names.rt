//! The names of relocation types (the processor supplements of the System V ABI).

ghost use Rattle.std.specs.Prelude.{◌≡◌, option_map};
ghost use Rattle.elf_linking.specs.RelocationNames.{relocation_name, name_of_aarch64_tls_end};
ghost use Rattle.elf_linking.specs.RelocationNames.{name_of_aarch64, name_of_aarch64_static};
ghost use Rattle.elf_linking.specs.RelocationNames.{name_of_x86_64, name_of_386};
ghost use Rattle.elf_linking.specs.RelocationNames.{name_of_aarch64_dynamic, name_of_aarch64_tls};

use crate::references::types::{EM_386, EM_AARCH64, EM_X86_64};

/// The name that the processor supplement of a machine (`e_machine`) has for a relocation type, such
/// as `R_X86_64_RELATIVE`; `None` for a number without a name, and for machines other than x86-64,
/// 386 and AArch64 of 64 bits.
pub fn relocation_name(machine: u16, kind: u32) -> Option<&'static str>
    ensures { option_map (λ name. name.now) result ≡ relocation_name machine kind }
{
    match machine {
        EM_X86_64 => name_of_x86_64(kind),
        EM_386 => name_of_386(kind),
        EM_AARCH64 => name_of_aarch64(kind),
        _ => None,
    }
}

fn name_of_aarch64(kind: u32) -> Option<&'static str>
    ensures { option_map (λ name. name.now) result ≡ name_of_aarch64 kind }
{
    if kind < 512 {
        name_of_aarch64_static(kind)
    } else if kind < 544 {
        name_of_aarch64_tls(kind)
    } else if kind < 1024 {
        name_of_aarch64_tls_end(kind)
    } else {
        name_of_aarch64_dynamic(kind)
    }
}

fn name_of_x86_64(kind: u32) -> Option<&'static str>
    ensures { option_map (λ name. name.now) result ≡ name_of_x86_64 kind }
{
    match kind {
        0 => Some("R_X86_64_NONE"),
        1 => Some("R_X86_64_64"),
        2 => Some("R_X86_64_PC32"),
        3 => Some("R_X86_64_GOT32"),
        4 => Some("R_X86_64_PLT32"),
        5 => Some("R_X86_64_COPY"),
        6 => Some("R_X86_64_GLOB_DAT"),
        7 => Some("R_X86_64_JUMP_SLOT"),
        8 => Some("R_X86_64_RELATIVE"),
        9 => Some("R_X86_64_GOTPCREL"),
        10 => Some("R_X86_64_32"),
        11 => Some("R_X86_64_32S"),
        12 => Some("R_X86_64_16"),
        13 => Some("R_X86_64_PC16"),
        14 => Some("R_X86_64_8"),
        15 => Some("R_X86_64_PC8"),
        16 => Some("R_X86_64_DTPMOD64"),
        17 => Some("R_X86_64_DTPOFF64"),
        18 => Some("R_X86_64_TPOFF64"),
        19 => Some("R_X86_64_TLSGD"),
        20 => Some("R_X86_64_TLSLD"),
        21 => Some("R_X86_64_DTPOFF32"),
        22 => Some("R_X86_64_GOTTPOFF"),
        23 => Some("R_X86_64_TPOFF32"),
        24 => Some("R_X86_64_PC64"),
        25 => Some("R_X86_64_GOTOFF64"),
        26 => Some("R_X86_64_GOTPC32"),
        27 => Some("R_X86_64_GOT64"),
        28 => Some("R_X86_64_GOTPCREL64"),
        29 => Some("R_X86_64_GOTPC64"),
        30 => Some("R_X86_64_GOTPLT64"),
        31 => Some("R_X86_64_PLTOFF64"),
        32 => Some("R_X86_64_SIZE32"),
        33 => Some("R_X86_64_SIZE64"),
        34 => Some("R_X86_64_GOTPC32_TLSDESC"),
        35 => Some("R_X86_64_TLSDESC_CALL"),
        36 => Some("R_X86_64_TLSDESC"),
        37 => Some("R_X86_64_IRELATIVE"),
        38 => Some("R_X86_64_RELATIVE64"),
        41 => Some("R_X86_64_GOTPCRELX"),
        42 => Some("R_X86_64_REX_GOTPCRELX"),
        _ => None,
    }
}

fn name_of_386(kind: u32) -> Option<&'static str>
    ensures { option_map (λ name. name.now) result ≡ name_of_386 kind }
{
    match kind {
        0 => Some("R_386_NONE"),
        1 => Some("R_386_32"),
        2 => Some("R_386_PC32"),
        3 => Some("R_386_GOT32"),
        4 => Some("R_386_PLT32"),
        5 => Some("R_386_COPY"),
        6 => Some("R_386_GLOB_DAT"),
        7 => Some("R_386_JMP_SLOT"),
        8 => Some("R_386_RELATIVE"),
        9 => Some("R_386_GOTOFF"),
        10 => Some("R_386_GOTPC"),
        11 => Some("R_386_32PLT"),
        14 => Some("R_386_TLS_TPOFF"),
        15 => Some("R_386_TLS_IE"),
        16 => Some("R_386_TLS_GOTIE"),
        17 => Some("R_386_TLS_LE"),
        18 => Some("R_386_TLS_GD"),
        19 => Some("R_386_TLS_LDM"),
        20 => Some("R_386_16"),
        21 => Some("R_386_PC16"),
        22 => Some("R_386_8"),
        23 => Some("R_386_PC8"),
        24 => Some("R_386_TLS_GD_32"),
        25 => Some("R_386_TLS_GD_PUSH"),
        26 => Some("R_386_TLS_GD_CALL"),
        27 => Some("R_386_TLS_GD_POP"),
        28 => Some("R_386_TLS_LDM_32"),
        29 => Some("R_386_TLS_LDM_PUSH"),
        30 => Some("R_386_TLS_LDM_CALL"),
        31 => Some("R_386_TLS_LDM_POP"),
        32 => Some("R_386_TLS_LDO_32"),
        33 => Some("R_386_TLS_IE_32"),
        34 => Some("R_386_TLS_LE_32"),
        35 => Some("R_386_TLS_DTPMOD32"),
        36 => Some("R_386_TLS_DTPOFF32"),
        37 => Some("R_386_TLS_TPOFF32"),
        38 => Some("R_386_SIZE32"),
        39 => Some("R_386_TLS_GOTDESC"),
        40 => Some("R_386_TLS_DESC_CALL"),
        41 => Some("R_386_TLS_DESC"),
        42 => Some("R_386_IRELATIVE"),
        43 => Some("R_386_GOT32X"),
        _ => None,
    }
}

fn name_of_aarch64_static(kind: u32) -> Option<&'static str>
    ensures { option_map (λ name. name.now) result ≡ name_of_aarch64_static kind }
{
    match kind {
        0 => Some("R_AARCH64_NONE"),
        257 => Some("R_AARCH64_ABS64"),
        258 => Some("R_AARCH64_ABS32"),
        259 => Some("R_AARCH64_ABS16"),
        260 => Some("R_AARCH64_PREL64"),
        261 => Some("R_AARCH64_PREL32"),
        262 => Some("R_AARCH64_PREL16"),
        263 => Some("R_AARCH64_MOVW_UABS_G0"),
        264 => Some("R_AARCH64_MOVW_UABS_G0_NC"),
        265 => Some("R_AARCH64_MOVW_UABS_G1"),
        266 => Some("R_AARCH64_MOVW_UABS_G1_NC"),
        267 => Some("R_AARCH64_MOVW_UABS_G2"),
        268 => Some("R_AARCH64_MOVW_UABS_G2_NC"),
        269 => Some("R_AARCH64_MOVW_UABS_G3"),
        270 => Some("R_AARCH64_MOVW_SABS_G0"),
        271 => Some("R_AARCH64_MOVW_SABS_G1"),
        272 => Some("R_AARCH64_MOVW_SABS_G2"),
        273 => Some("R_AARCH64_LD_PREL_LO19"),
        274 => Some("R_AARCH64_ADR_PREL_LO21"),
        275 => Some("R_AARCH64_ADR_PREL_PG_HI21"),
        276 => Some("R_AARCH64_ADR_PREL_PG_HI21_NC"),
        277 => Some("R_AARCH64_ADD_ABS_LO12_NC"),
        278 => Some("R_AARCH64_LDST8_ABS_LO12_NC"),
        279 => Some("R_AARCH64_TSTBR14"),
        280 => Some("R_AARCH64_CONDBR19"),
        282 => Some("R_AARCH64_JUMP26"),
        283 => Some("R_AARCH64_CALL26"),
        284 => Some("R_AARCH64_LDST16_ABS_LO12_NC"),
        285 => Some("R_AARCH64_LDST32_ABS_LO12_NC"),
        286 => Some("R_AARCH64_LDST64_ABS_LO12_NC"),
        287 => Some("R_AARCH64_MOVW_PREL_G0"),
        288 => Some("R_AARCH64_MOVW_PREL_G0_NC"),
        289 => Some("R_AARCH64_MOVW_PREL_G1"),
        290 => Some("R_AARCH64_MOVW_PREL_G1_NC"),
        291 => Some("R_AARCH64_MOVW_PREL_G2"),
        292 => Some("R_AARCH64_MOVW_PREL_G2_NC"),
        293 => Some("R_AARCH64_MOVW_PREL_G3"),
        299 => Some("R_AARCH64_LDST128_ABS_LO12_NC"),
        300 => Some("R_AARCH64_MOVW_GOTOFF_G0"),
        301 => Some("R_AARCH64_MOVW_GOTOFF_G0_NC"),
        302 => Some("R_AARCH64_MOVW_GOTOFF_G1"),
        303 => Some("R_AARCH64_MOVW_GOTOFF_G1_NC"),
        304 => Some("R_AARCH64_MOVW_GOTOFF_G2"),
        305 => Some("R_AARCH64_MOVW_GOTOFF_G2_NC"),
        306 => Some("R_AARCH64_MOVW_GOTOFF_G3"),
        307 => Some("R_AARCH64_GOTREL64"),
        308 => Some("R_AARCH64_GOTREL32"),
        309 => Some("R_AARCH64_GOT_LD_PREL19"),
        310 => Some("R_AARCH64_LD64_GOTOFF_LO15"),
        311 => Some("R_AARCH64_ADR_GOT_PAGE"),
        312 => Some("R_AARCH64_LD64_GOT_LO12_NC"),
        313 => Some("R_AARCH64_LD64_GOTPAGE_LO15"),
        _ => None,
    }
}

fn name_of_aarch64_tls(kind: u32) -> Option<&'static str>
    ensures { option_map (λ name. name.now) result ≡ name_of_aarch64_tls kind }
{
    match kind {
        512 => Some("R_AARCH64_TLSGD_ADR_PREL21"),
        513 => Some("R_AARCH64_TLSGD_ADR_PAGE21"),
        514 => Some("R_AARCH64_TLSGD_ADD_LO12_NC"),
        515 => Some("R_AARCH64_TLSGD_MOVW_G1"),
        516 => Some("R_AARCH64_TLSGD_MOVW_G0_NC"),
        517 => Some("R_AARCH64_TLSLD_ADR_PREL21"),
        518 => Some("R_AARCH64_TLSLD_ADR_PAGE21"),
        519 => Some("R_AARCH64_TLSLD_ADD_LO12_NC"),
        520 => Some("R_AARCH64_TLSLD_MOVW_G1"),
        521 => Some("R_AARCH64_TLSLD_MOVW_G0_NC"),
        522 => Some("R_AARCH64_TLSLD_LD_PREL19"),
        523 => Some("R_AARCH64_TLSLD_MOVW_DTPREL_G2"),
        524 => Some("R_AARCH64_TLSLD_MOVW_DTPREL_G1"),
        525 => Some("R_AARCH64_TLSLD_MOVW_DTPREL_G1_NC"),
        526 => Some("R_AARCH64_TLSLD_MOVW_DTPREL_G0"),
        527 => Some("R_AARCH64_TLSLD_MOVW_DTPREL_G0_NC"),
        528 => Some("R_AARCH64_TLSLD_ADD_DTPREL_HI12"),
        529 => Some("R_AARCH64_TLSLD_ADD_DTPREL_LO12"),
        530 => Some("R_AARCH64_TLSLD_ADD_DTPREL_LO12_NC"),
        531 => Some("R_AARCH64_TLSLD_LDST8_DTPREL_LO12"),
        532 => Some("R_AARCH64_TLSLD_LDST8_DTPREL_LO12_NC"),
        533 => Some("R_AARCH64_TLSLD_LDST16_DTPREL_LO12"),
        534 => Some("R_AARCH64_TLSLD_LDST16_DTPREL_LO12_NC"),
        535 => Some("R_AARCH64_TLSLD_LDST32_DTPREL_LO12"),
        536 => Some("R_AARCH64_TLSLD_LDST32_DTPREL_LO12_NC"),
        537 => Some("R_AARCH64_TLSLD_LDST64_DTPREL_LO12"),
        538 => Some("R_AARCH64_TLSLD_LDST64_DTPREL_LO12_NC"),
        539 => Some("R_AARCH64_TLSIE_MOVW_GOTTPREL_G1"),
        540 => Some("R_AARCH64_TLSIE_MOVW_GOTTPREL_G0_NC"),
        541 => Some("R_AARCH64_TLSIE_ADR_GOTTPREL_PAGE21"),
        542 => Some("R_AARCH64_TLSIE_LD64_GOTTPREL_LO12_NC"),
        543 => Some("R_AARCH64_TLSIE_LD_GOTTPREL_PREL19"),
        _ => None,
    }
}

fn name_of_aarch64_tls_end(kind: u32) -> Option<&'static str>
    ensures { option_map (λ name. name.now) result ≡ name_of_aarch64_tls_end kind }
{
    match kind {
        544 => Some("R_AARCH64_TLSLE_MOVW_TPREL_G2"),
        545 => Some("R_AARCH64_TLSLE_MOVW_TPREL_G1"),
        546 => Some("R_AARCH64_TLSLE_MOVW_TPREL_G1_NC"),
        547 => Some("R_AARCH64_TLSLE_MOVW_TPREL_G0"),
        548 => Some("R_AARCH64_TLSLE_MOVW_TPREL_G0_NC"),
        549 => Some("R_AARCH64_TLSLE_ADD_TPREL_HI12"),
        550 => Some("R_AARCH64_TLSLE_ADD_TPREL_LO12"),
        551 => Some("R_AARCH64_TLSLE_ADD_TPREL_LO12_NC"),
        552 => Some("R_AARCH64_TLSLE_LDST8_TPREL_LO12"),
        553 => Some("R_AARCH64_TLSLE_LDST8_TPREL_LO12_NC"),
        554 => Some("R_AARCH64_TLSLE_LDST16_TPREL_LO12"),
        555 => Some("R_AARCH64_TLSLE_LDST16_TPREL_LO12_NC"),
        556 => Some("R_AARCH64_TLSLE_LDST32_TPREL_LO12"),
        557 => Some("R_AARCH64_TLSLE_LDST32_TPREL_LO12_NC"),
        558 => Some("R_AARCH64_TLSLE_LDST64_TPREL_LO12"),
        559 => Some("R_AARCH64_TLSLE_LDST64_TPREL_LO12_NC"),
        560 => Some("R_AARCH64_TLSDESC_LD_PREL19"),
        561 => Some("R_AARCH64_TLSDESC_ADR_PREL21"),
        562 => Some("R_AARCH64_TLSDESC_ADR_PAGE21"),
        563 => Some("R_AARCH64_TLSDESC_LD64_LO12"),
        564 => Some("R_AARCH64_TLSDESC_ADD_LO12"),
        565 => Some("R_AARCH64_TLSDESC_OFF_G1"),
        566 => Some("R_AARCH64_TLSDESC_OFF_G0_NC"),
        567 => Some("R_AARCH64_TLSDESC_LDR"),
        568 => Some("R_AARCH64_TLSDESC_ADD"),
        569 => Some("R_AARCH64_TLSDESC_CALL"),
        570 => Some("R_AARCH64_TLSLE_LDST128_TPREL_LO12"),
        571 => Some("R_AARCH64_TLSLE_LDST128_TPREL_LO12_NC"),
        572 => Some("R_AARCH64_TLSLD_LDST128_DTPREL_LO12"),
        573 => Some("R_AARCH64_TLSLD_LDST128_DTPREL_LO12_NC"),
        _ => None,
    }
}

fn name_of_aarch64_dynamic(kind: u32) -> Option<&'static str>
    ensures { option_map (λ name. name.now) result ≡ name_of_aarch64_dynamic kind }
{
    match kind {
        1024 => Some("R_AARCH64_COPY"),
        1025 => Some("R_AARCH64_GLOB_DAT"),
        1026 => Some("R_AARCH64_JUMP_SLOT"),
        1027 => Some("R_AARCH64_RELATIVE"),
        1028 => Some("R_AARCH64_TLS_DTPMOD"),
        1029 => Some("R_AARCH64_TLS_DTPREL"),
        1030 => Some("R_AARCH64_TLS_TPREL"),
        1031 => Some("R_AARCH64_TLSDESC"),
        1032 => Some("R_AARCH64_IRELATIVE"),
        _ => None,
    }
}
